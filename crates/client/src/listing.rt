// Calls that stand on a list, and what they come to.
use names::name::Name;
use provider::requests::Edition;
use slots::answers::Answer;
use zone::refusals::Refusal;
use zone::rows::{Instant, Interval};
use zone::windows::Table;

/// A call on the client. A collect or an abandon brings the zone's pending fetch.
#[derive(Clone, Copy)]
pub enum Call {
    Begin { name: Name, interval: Interval },
    Collect { name: Name },
    Abandon { name: Name },
    Forget { name: Name },
    Query { name: Name, at: Instant },
}

/// A call on the client, or a publication that it passes down.
#[derive(Drop)]
pub enum Entry {
    Call { call: Call },
    Publish { name: Name, table: Table },
}

/// What a call came to. A begin answers its pending fetch, by slot and interval; a refused collect or abandon hands it back.
#[derive(Clone, Copy)]
pub enum Outcome {
    Began {
        slot: usize,
        interval: Interval,
    },
    Collected {
        edition: Edition,
    },
    Abandoned,
    Forgotten,
    Answered {
        answer: Answer,
    },
    Published {
        edition: Edition,
    },
    Refused {
        refusal: Refusal,
    },
    HandedBack {
        refusal: Refusal,
        slot: usize,
        interval: Interval,
    },
    NotPending,
}
