// Laws of the row in force and of cuts, and the worked examples.
ghost use Rattle.cutting.specs.Examples.{Worked};
ghost use Rattle.cutting.specs.Laws.{CutsAgree, SomeInForce};

/// At each instant of the interval that rows cover, the row in force has begun, and no later one has.
pub fn rows_are_in_force()
    ensures { SomeInForce }
{}

/// A cut covers its interval with offsets in range, every instant has there the local time, offset and observance that it had, and cutting it again is cutting what was cut.
pub fn cuts_agree()
    ensures { CutsAgree }
{}

/// The worked examples hold.
pub fn worked()
    ensures { Worked }
{}
