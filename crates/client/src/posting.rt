// Publications through the client, and a client's beginning and end.
ghost use Rattle.std.specs.Prelude.{◌≡◌, IfOk};
ghost use Rattle.provider.specs.Publishing.{Published};
ghost use Rattle.provider.specs.Whole.{meaning};
ghost use Rattle.history.specs.Cells.{new_client};
ghost use Rattle.client.specs.Following.{InOrder, state_in};

use super::clients::Client;
use names::name::Name;
use provider::providers::Provider;
use provider::publishing::Publishing;
use provider::requests::Edition;
use slots::slot::Slots;
use std::alloc::{AllocError, Global};
use zone::refusals::Refusal;
use zone::windows::{Table, Window};

impl<P: Provider> Client<P> {
    /// A client that holds nothing, with all memory that its calls will need.
    pub fn new(heap: Global, provider: P) -> Result<Client<P>, AllocError>
    where
        P: Drop,
        ensures { IfOk result (λ c. (c.provider ≡ provider) × (state_in c ≡ new_client) × (P.Provider.in_order provider → InOrder P.Provider c)) }
    {
        let slots = Slots::new(heap, 0)?;
        let spare = Window::new(heap)?;
        Ok(Client {
            provider,
            slots,
            spare,
        })
    }

    /// The provider, as the calls left it.
    pub fn into_provider(self) -> P
        ensures { result ≡ self.provider }
    {
        let Client {
            provider,
            slots: _,
            spare: _,
        } = self;
        provider
    }
}

impl<P: Publishing> Client<P> {
    /// Passes a publication down.
    pub fn publish(&mut self, name: Name, table: &Table) -> Result<Edition, Refusal>
        ensures after { P.Publishing.after_publish self.old.provider name table.now self.new.provider }
        ensures told { P.Provider.in_order self.old.provider → Published (meaning P.Provider self.old.provider) (meaning P.Provider self.new.provider) (P.Provider.in_order self.new.provider) (P.Publishing.fits self.old.provider) name table.now self.old.provider self.new.provider result }
        ensures held { state_in self.new ≡ state_in self.old }
        ensures order { InOrder P.Provider self.old → InOrder P.Provider self.new }
    {
        self.provider.publish(name, table)
    }
}
