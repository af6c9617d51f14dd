// A provider that also takes publications.
ghost use Rattle.std.specs.Prelude.{ℕ, Bool};
ghost use Rattle.names.specs.declared.name.Name.{Name};
ghost use Rattle.zone.specs.declared.windows.Table.{Table};
ghost use Rattle.provider.specs.Meaning.{means};
ghost use Rattle.provider.specs.Publishing.{Published};

use super::providers::Provider;
use super::requests::Edition;
use names::name::Name;
use zone::refusals::Refusal;
use zone::windows::Table;

/// A provider that takes publications. It means besides, for each number of rows, whether a table of that size fits.
pub trait Publishing: Provider {
    ghost fits: { Self → ℕ → Bool };

    // Holds of a state, a name and a table, and each state that a publication of them may leave.
    ghost after_publish: { Self → Name → Table → Self → Type 0 };

    /// Publishes a table over the era for the name, and answers the number of the new edition.
    fn publish(&mut self, name: Name, table: &Table) -> Result<Edition, Refusal>
        ensures after { after_publish self.old name table.now self.new }
        ensures told { Self.in_order self.old → Published (means Self.span Self.count Self.pages Self.turn self.old) (means Self.span Self.count Self.pages Self.turn self.new) (Self.in_order self.new) (fits self.old) name table.now self.old self.new result };
}
