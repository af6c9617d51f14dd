// Reads a script from standard input, makes its calls on a client over a stack of providers, and prints what they came to.
#![tactic(auto)]

mod printing;
mod stacks;

use anyhow::anyhow;
use printing::print_all;
use script::reading::read_script;
use script::scripts::Fault;
use stacks::replay_script;
use std::io::Read;

// Tells the fault of a script.
fn tell(rt: &HostRuntime, fault: Fault) -> anyhow::Result<()> {
    match fault {
        Fault::NotUnderstood { line } => {
            println!(rt; "line {line}: not understood")?;
            Err(anyhow!("the script is at fault"))
        }
        Fault::NoMemory => Err(anyhow!("no memory for the script")),
    }
}

fn main(rt: HostRuntime) -> anyhow::Result<()> {
    let mut text = Vec::new(rt.alloc());
    let _ = rt.stdin().read_to_end(&mut text)?;
    match read_script(rt.alloc(), text.as_slice()) {
        Ok(script) => {
            let outcomes = replay_script(rt.alloc(), &script)?;
            print_all(&rt, &script, outcomes.as_slice())
        }
        Err(fault) => tell(&rt, fault),
    }
}
