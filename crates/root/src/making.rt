// Roots made.
ghost use Rattle.std.specs.Prelude.{IfOk};
ghost use Rattle.root.specs.Roots.{New};

use super::entries::Limits;
use super::roots::Root;
use std::alloc::{AllocError, Global};

impl Root {
    /// A root with no publication yet, and with storage for so many entries and so many rows.
    pub fn new(heap: Global, entries: usize, rows: usize) -> Result<Root, AllocError>
        ensures { IfOk result (New entries rows) }
    {
        Ok(Root {
            entries: Vec::with_capacity(heap, entries)?,
            rows: Vec::with_capacity(heap, rows)?,
            limits: Limits { entries, rows },
        })
    }
}
