// The root as a provider that takes publications.
ghost use Rattle.std.specs.Prelude.{◌≡◌, vec_len};
ghost use Rattle.std.proofs.Common.{sym, ◌∙◌};
ghost use Rattle.zone.specs.Intervals.{era};
ghost use Rattle.root.specs.Logs.{pages as pages_of, publication};
ghost use Rattle.root.specs.Order.{InOrder};
ghost use Rattle.root.specs.Roots.{AfterPublish, has_room, log_of};
ghost use Rattle.std.proofs.lemmas.List.{length-map};
ghost use Rattle.root.specs.Grown.{sound_log};

use super::roots::Root;
use names::name::Name;
use provider::answers::check;
use provider::providers::Provider;
use provider::publishing::Publishing;
use provider::requests::{Edition, Reply, Request};
use zone::intervals::ERA;
use zone::refusals::Refusal;
use zone::rows::Interval;
use zone::windows::{Table, Window};

/// A root covers the era, its count and its turn are the number of its publications, and its pages are those of its log.
impl Provider for Root {
    ghost span = { λ s. era };

    ghost count = { λ s. vec_len s.entries };

    ghost pages = { λ s. pages_of (log_of s) };

    ghost turn = { λ s n i. vec_len s.entries };

    ghost in_order = { λ s. InOrder (log_of s) };

    ghost after_fetch = { λ s q t. t ≡ s };

    ghost sound = { λ s o. sound_log (log_of s) s.entries.len (s.entries.ok.0 ∙ sym (length-map s.entries.items (publication s.rows.items))) s.few o };

    fn span(&self) -> Interval {
        ERA
    }

    fn fetch(&mut self, request: Request, place: &mut Window) -> Result<Reply, Refusal> {
        check(&request, ERA)?;
        if self.entries.is_empty() {
            return Err(Refusal::Silent);
        }
        self.answer(request, place)
    }
}

/// A table fits where an entry and its rows are unused.
impl Publishing for Root {
    ghost fits = { has_room };

    ghost after_publish = { AfterPublish };

    fn publish(&mut self, name: Name, table: &Table) -> Result<Edition, Refusal> {
        if !name.is_valid() {
            return Err(Refusal::BadName);
        }
        if !table.is_over_era() {
            return Err(Refusal::NotATable);
        }
        if !self.takes(table.rows.len()) {
            return Err(Refusal::DoesNotFit);
        }
        Ok(self.add(name, table))
    }
}
