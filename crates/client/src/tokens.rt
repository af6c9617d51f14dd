// The pending fetches of a session: made, taken, kept and given up.
ghost use Rattle.std.specs.Prelude.{◌≡◌, ◌<◌, replicate, IfSome, IfOk, Some, None, slice_set};
ghost use Rattle.history.specs.Cells.{new_client, place_of};
ghost use Rattle.client.specs.Following.{state_in};
ghost use Rattle.client.specs.Listing.{token_at, without};

use super::clients::Client;
use super::pending::PendingFetch;
use super::sessions::Session;
use names::name::Name;
use provider::providers::Provider;
use slots::table::SLOTS;
use std::alloc::{AllocError, Global};

impl<P: Provider> Session<P> {
    // A new client with nothing pending.
    pub(crate) fn new(heap: Global, provider: P) -> Result<Session<P>, AllocError>
    where
        P: Drop,
        ensures { IfOk result (λ s. (s.client.provider ≡ provider) × (state_in s.client ≡ new_client) × (s.tokens.items ≡ replicate 16 None)) }
    {
        let client = Client::new(heap, provider)?;
        let mut tokens = Vec::with_capacity(heap, SLOTS)?;
        // A loop, since a call that makes such a vector drops tokens where it fails, and their drop has a condition.
        for _i in 0..SLOTS {
            tokens.push_reserved(None);
        }
        Ok(Session { client, tokens })
    }

    // Abandons what is pending, and gives the provider back.
    pub(crate) fn close(self) -> P
        ensures { result ≡ self.client.provider }
    {
        let Session {
            mut client,
            mut tokens,
        } = self;
        // By pop, since a loop over the vector itself drops what it has left, and a token's drop has a condition.
        while let Some(held) = tokens.pop() {
            if let Some(pending) = held {
                if let Err((_, back)) = client.abandon(pending) {
                    back.end();
                }
            }
        }
        tokens.destroy_empty();
        client.into_provider()
    }

    // The slot stands beside its token: that the token names it is known of a client in order alone.
    // Takes the zone's pending fetch, and answers its slot.
    pub(crate) fn take(&mut self, name: &Name) -> Option<(usize, PendingFetch)>
        ensures taken { result ≡ token_at self.old.tokens.items (place_of (state_in self.old.client) name.now) }
        ensures within { IfSome result (λ p. p.0 < 16) }
        ensures tokens { self.new.tokens.items ≡ without self.old.tokens.items (place_of (state_in self.old.client) name.now) }
        ensures client { self.new.client ≡ self.old.client }
    {
        let slot = self.client.slots.find(name)?;
        let pending = self.tokens[slot].take()?;
        Some((slot, pending))
    }

    // The slot is a plain number, as the search of the slots answers it.
    // Keeps the pending fetch of a slot; no client waits for one that stood there.
    pub(crate) fn keep(&mut self, slot: usize, pending: PendingFetch)
        requires { slot < 16 }
        ensures tokens { self.new.tokens.items ≡ slice_set self.old.tokens.items slot (Some pending) }
        ensures client { self.new.client ≡ self.old.client }
    {
        if let Some(other) = self.tokens[slot].replace(pending) {
            other.end();
        }
    }
}
