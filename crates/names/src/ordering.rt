// Names in byte order.
ghost use Rattle.std.specs.Prelude.{◌≡◌};
ghost use Rattle.names.specs.Comparing.{before};

use super::name::Name;

impl Name {
    /// Whether this name comes strictly before the other in byte order.
    // As the derived `<` tells, but in a loop, as names are compared; it takes less time than that.
    pub fn is_before(&self, other: &Name) -> bool
        ensures { result ≡ before self.now.bytes other.now.bytes }
    {
        for (a, b) in self.bytes.iter().zip(&other.bytes) {
            if a != b {
                return a < b;
            }
        }
        false
    }
}
