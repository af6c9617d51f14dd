// The laws and the worked examples, as contracts.
ghost use Rattle.calendar.specs.Laws.{CalendarLaws, Worked};

/// Valid stamps and the seconds in range correspond one to one.
pub fn calendar_stands()
    ensures { CalendarLaws }
{}

/// The worked examples hold.
pub fn worked()
    ensures { Worked }
{}
