// A zone's name.
ghost use Rattle.std.proofs.Common.{rules};
ghost use Rattle.std.specs.Prelude.{◌≡◌, Decides};
ghost use Rattle.std.specs.Cmp.Rules.{comparing};
ghost use Rattle.names.specs.Comparing.{same_name};

/// How many bytes a name takes, its padding among them.
pub const NAME_BYTES: usize = 48;

/// A zone's name: 48 bytes, of which the unused ones at the end are zero. Any bytes may stand in it; `is_valid` tells whether it is a name. Names are ordered byte by byte.
#[derive(Clone, Copy, Eq, PartialOrd, Ord, Debug)]
pub struct Name {
    pub bytes: [u8; NAME_BYTES],
}

// Not derived: it is a rule of the project that names are compared byte by byte, in a loop.
impl PartialEq for Name {
    ghost eq = { same_name };

    ghost laws = { Prim.search (comparing, rules) };

    fn eq(&self, other: &Name) -> bool
        ensures is { result ≡ same_name self.now other.now }
        ensures name { Decides result (self.now ≡ other.now) }
        ensures bytes { Decides result (self.now.bytes ≡ other.now.bytes) }
    {
        for (a, b) in self.bytes.iter().zip(&other.bytes) {
            if a != b {
                return false;
            }
        }
        true
    }
}
