// The stack of providers of a script, and its calls made on a client over the stack.
ghost use Rattle.std.specs.Prelude.{IfOk};
ghost use Rattle.depot.specs.Stacks.{Played, Sourced, Stacked};

use client::listing::Outcome;
use client::replays::replay_publishing;
use line::lines::Line;
use relay::relays::Relay;
use root::roots::Root;
use script::scripts::{Script, Setup};
use std::alloc::{AllocError, Global};
use truncation::truncations::Truncation;

/// What the relay stands on: a line to the truncation of a root.
pub type Source = Line<Truncation<Root>>;

/// What the client stands on: a line to a relay.
pub type Stack = Line<Relay<Source>>;

// The part of the stack below the relay.
fn source(heap: Global, setup: Setup<'_>) -> Result<Source, AllocError>
    ensures { IfOk result (Sourced setup.entry) }
{
    let root = Root::new(heap, setup.storage.entries, setup.storage.rows)?;
    let truncation = Truncation::new(root, setup.span);
    Ok(Line::new(heap, truncation, setup.uplink)?)
}

// The whole stack.
fn stack(heap: Global, setup: Setup<'_>) -> Result<Stack, AllocError>
    ensures { IfOk result (Stacked setup.entry) }
{
    let relay = Relay::new(heap, source(heap, setup)?)?;
    Ok(Line::new(heap, relay, setup.downlink)?)
}

/// Makes the calls of a script on a new client over the script's stack.
pub fn replay_script(heap: Global, script: &Script<'_>) -> Result<Vec<Outcome>, AllocError>
    ensures { IfOk result (λ v. Played script.now.setup script.now.entries.items v.items) }
{
    let provider = stack(heap, script.setup)?;
    let (outcomes, _) = replay_publishing(heap, provider, script.entries.as_slice())?;
    Ok(outcomes)
}
