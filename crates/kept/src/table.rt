// The table of places: made once and searched.
ghost use Rattle.std.specs.Prelude.{◌≡◌, ◌<◌, IfSome, IfOk, None, position};
ghost use Rattle.kept.specs.Keeping.{is_free as free_there, is_of as kept_of, kept, kept_in, none_kept, place_for, place_of};

pub use super::places::PLACES;
use super::places::{Place, Places};
use names::name::Name;
use std::alloc::{AllocError, Global};
use std::array;
use zone::windows::Window;

impl Place {
    // A free place, with the memory of its window.
    fn new(heap: Global) -> Result<Place, AllocError>
        ensures { IfOk result (λ p. kept_in p ≡ None) }
    {
        Ok(Place {
            label: None,
            window: Window::new(heap)?,
        })
    }

    // Whether nothing is kept there.
    fn is_free(&self) -> bool
        ensures { result ≡ free_there (kept_in self.now) }
    {
        self.label.is_none()
    }

    // Whether a page of the name is kept there.
    fn is_of(&self, name: &Name) -> bool
        ensures { result ≡ kept_of name.now (kept_in self.now) }
    {
        self.label.is_some_and(|label| label.name == *name)
    }
}

// Much like the client's slots: what is alike is the library's (searches, swaps), and one type for both would say the rules of neither.
impl Places {
    /// Eight free places, with all the memory that they will ever take.
    pub fn new(heap: Global) -> Result<Places, AllocError>
        ensures { IfOk result (λ p. kept p ≡ none_kept) }
    {
        Ok(Places {
            places: array::try_from_fn(|_| Place::new(heap))?,
        })
    }

    // The number of the place that keeps a page of the name.
    // That it is one of the places stands beside each search: a type for such numbers would only be opened again at every index.
    pub(crate) fn find(&self, name: &Name) -> Option<usize>
        ensures place { result ≡ place_of (kept self.now) name.now }
        ensures within { IfSome result (λ i. i < PLACES) }
    {
        self.places.iter().position(|place| place.is_of(name))
    }

    // The number of the first free place.
    fn find_free(&self) -> Option<usize>
        ensures place { result ≡ position free_there (kept self.now) }
        ensures within { IfSome result (λ i. i < PLACES) }
    {
        self.places.iter().position(|place| place.is_free())
    }

    // The number of the place where a page of the name goes.
    pub(crate) fn find_for(&self, name: &Name) -> Option<usize>
        ensures place { result ≡ place_for (kept self.now) name.now }
        ensures within { IfSome result (λ i. i < PLACES) }
    {
        self.find(name).or_else(|| self.find_free())
    }
}
