// Any list of calls on a new client over any provider.
ghost use Rattle.std.specs.Prelude.{map, IfOk};
ghost use Rattle.history.specs.Promises.{HistoriesStand, Replayed};
ghost use Rattle.history.specs.Sources.{publishing_source, source, source_of};
ghost use Rattle.client.specs.Listing.{call_of, entry_of, report_of};

use super::items::Item;
use super::listing::{Call, Entry, Outcome};
use super::sessions::Session;
use provider::providers::Provider;
use provider::publishing::Publishing;
use std::alloc::{AllocError, Global};

/// Makes the calls on a new client over the provider, and gives what they came to and the provider back. All memory is taken before the first call.
pub fn replay<P: Provider + Drop>(
    heap: Global,
    provider: P,
    calls: &[Call],
) -> Result<(Vec<Outcome>, P), AllocError>
    ensures replayed { P.Provider.in_order provider → IfOk result (λ v. Replayed (source P.Provider) provider v.1 (map call_of calls.now) (map report_of v.0.items)) }
    ensures every { HistoriesStand (source P.Provider) provider }
{
    replay_items(heap, provider, calls)
}

/// The same with publications, over a provider that takes them.
pub fn replay_publishing<P: Publishing + Drop>(
    heap: Global,
    provider: P,
    entries: &[Entry],
) -> Result<(Vec<Outcome>, P), AllocError>
    ensures replayed { P.Provider.in_order provider → IfOk result (λ v. Replayed (publishing_source P.Provider P.Publishing.own) provider v.1 (map entry_of entries.now) (map report_of v.0.items)) }
    ensures every { HistoriesStand (publishing_source P.Provider P.Publishing.own) provider }
{
    replay_items(heap, provider, entries)
}

// Makes the items on a new client over the provider.
fn replay_items<P: Provider + Drop, I: Item<P>>(
    heap: Global,
    provider: P,
    items: &[I],
) -> Result<(Vec<Outcome>, P), AllocError>
    ensures replayed { P.Provider.in_order provider → IfOk result (λ v. Replayed (source_of P.Provider I.Item.fits I.Item.after_publish) provider v.1 (map I.Item.call items.now) (map report_of v.0.items)) }
    ensures every { HistoriesStand (source_of P.Provider I.Item.fits I.Item.after_publish) provider }
{
    let mut outcomes = Vec::with_capacity(heap, items.len())?;
    let mut session = Session::new(heap, provider)?;
    // A `for` with `push_reserved`: the memory for all outcomes is taken before the first call.
    for item in items {
        let outcome = item.make(&mut session);
        outcomes.push_reserved(outcome);
    }
    Ok((outcomes, session.close()))
}
