// The laws of texts, and worked examples.
ghost use Rattle.zonetext.specs.Examples.{Worked};
ghost use Rattle.zonetext.specs.Laws.{TextsStand};

/// Each name with a window has one text, and that text reads as them.
pub fn texts_stand()
    ensures { TextsStand }
{}

/// The worked examples hold.
pub fn worked()
    ensures { Worked }
{}
