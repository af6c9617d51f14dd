// The pending fetch.
ghost use Rattle.std.specs.Prelude.{◌≡◌, true};
ghost use Rattle.client.specs.Told.{settled_with};

use zone::refusals::Refusal;
use zone::rows::Interval;

/// A fetch that was begun: the number of its slot and its interval. It must end in a collect that is accepted or in an abandon; letting it fall is refused when the program is checked.
pub struct PendingFetch {
    // No ghost field says that the slot is one of sixteen: the definitions speak of the token of any number, which would then need the bound too.
    pub(crate) slot: usize,
    pub(crate) interval: Interval,
    // A flag: it is a rule of the project that the drop demands that the token was spent.
    pub(crate) spent: bool,
}

impl Drop for PendingFetch {
    fn drop(self)
        requires { self.spent ≡ true }
    {
        let PendingFetch {
            slot: _,
            interval: _,
            spent: _,
        } = self;
    }
}

impl PendingFetch {
    // Ends the fetch where it was settled; a refusal hands it back.
    pub(crate) fn settle<T>(
        mut self,
        settled: Result<T, Refusal>,
    ) -> Result<T, (Refusal, PendingFetch)>
        ensures { result ≡ settled_with self settled }
    {
        match settled {
            Ok(value) => {
                self.spent = true;
                Ok(value)
            }
            Err(refusal) => Err((refusal, self)),
        }
    }

    // Ends a pending fetch that no client waits for.
    pub(crate) fn end(mut self) {
        self.spent = true;
    }
}
