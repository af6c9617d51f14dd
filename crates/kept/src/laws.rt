// What is kept over fetches, and the worked examples.
ghost use Rattle.kept.specs.Examples.{Worked};
ghost use Rattle.kept.specs.Laws.{PagesStand};

/// Over every fetch there are as many places, one page a name, the pages of all other names stay as they were, and that of its own name is from no lower edition.
pub fn pages_stand()
    ensures { PagesStand }
{}

/// The worked examples hold.
pub fn worked()
    ensures { Worked }
{}
