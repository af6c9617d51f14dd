// Laws of names.
ghost use Rattle.names.specs.Comparing.{NamesOrdered};
ghost use Rattle.names.specs.Laws.{NamesStand};

/// A held name is valid exactly when some bytes, at least one, are name bytes and the rest is zero; making a name of a text and spelling it gives the text.
pub fn names_stand()
    ensures { NamesStand }
{}

/// Byte order is strict, and of two lists of bytes that differ one comes before the other.
pub fn names_ordered()
    ensures { NamesOrdered }
{}
