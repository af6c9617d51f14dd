// A client with the pending fetches of a list of calls.
ghost use Rattle.std.specs.Prelude.{◌≡◌, vec_len};

use super::clients::Client;
use super::pending::PendingFetch;

// Beside the slots, place by place: a client hands its pending fetches out, so they cannot stand in its slots.
// The client, and the pending fetch of each slot.
pub(crate) struct Session<P> {
    pub(crate) client: Client<P>,
    pub(crate) tokens: Vec<Option<PendingFetch>>,
    ghost all: { vec_len tokens ≡ 16 },
}
