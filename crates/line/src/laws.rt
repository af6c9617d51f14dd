// The worked examples.
ghost use Rattle.line.specs.Examples.{Worked};

/// The worked examples hold.
pub fn worked()
    ensures { Worked }
{}
