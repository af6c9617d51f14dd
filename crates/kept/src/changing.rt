// Changes of what is kept, one place at a time.
ghost use Rattle.std.specs.Prelude.{◌≡◌, if◌then◌else◌, Some};
ghost use Rattle.std.specs.Option.{option_map};
ghost use Rattle.kept.specs.Keeping.{from_edition, kept, kept_for, kept_in, labelled, may_replace, place_for, place_of, with_page};

use super::places::{Label, Place, Places};
use names::name::Name;
use provider::requests::Edition;
use zone::windows::Window;

impl Place {
    // Whether a page of the edition may take the place: nothing is kept there, or nothing newer.
    fn may_replace(&self, edition: Edition) -> bool
        ensures { result ≡ may_replace edition (kept_in self.now) }
    {
        self.label
            .is_none_or(|label| label.version.edition <= edition)
    }

    // The page is from this edition from now on.
    fn set_edition(&mut self, edition: Edition)
        ensures { kept_in self.new ≡ option_map (from_edition edition) (kept_in self.old) }
    {
        if let Some(label) = &mut self.label {
            label.version.edition = edition;
        }
    }

    // Keeps what the window holds, under a label; the window gets what the place's own held.
    fn keep(&mut self, label: Label, window: &mut Window)
        ensures { kept_in self.new ≡ labelled (Some label) window.old }
    {
        self.label = Some(label);
        std::mem::swap(&mut self.window, window);
    }
}

impl Places {
    // The page that is kept of the name is from this edition from now on.
    pub(crate) fn renew(&mut self, name: &Name, edition: Edition)
        ensures { kept self.new ≡ with_page (kept self.old) (place_of (kept self.old) name.now) (option_map (from_edition edition) (kept_for (kept self.old) name.now)) }
    {
        if let Some(i) = self.find(name) {
            self.places[i].set_edition(edition);
        }
    }

    // Keeps the page that the window holds, if nothing newer is kept of its name and there is a place.
    pub(crate) fn keep(&mut self, label: Label, window: &mut Window)
        ensures { kept self.new ≡ (if may_replace label.version.edition (kept_for (kept self.old) label.name) then with_page (kept self.old) (place_for (kept self.old) label.name) (labelled (Some label) window.old) else kept self.old) }
    {
        if let Some(i) = self.find_for(&label.name) {
            if self.places[i].may_replace(label.version.edition) {
                self.places[i].keep(label, window);
            }
        }
    }
}
