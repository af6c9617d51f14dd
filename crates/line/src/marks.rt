// Fates, spelled by bytes.
ghost use Rattle.std.specs.Prelude.{◌≡◌, IfOk};
ghost use Rattle.std.specs.List.{filter_map};
ghost use Rattle.std.specs.Result.{result_ok};
ghost use Rattle.line.specs.Fates.{are_marks, fates_of, left_after, next_fate, read_mark};

use super::fates::Fate;
use std::alloc::{AllocError, Global};
use std::collections::VecDeque;

/// The most fates that a line is made with.
pub const MOST_FATES: usize = 64;

// Whether all bytes stand for fates.
fn are_marks(bytes: &[u8]) -> bool
    ensures { result ≡ are_marks bytes.now }
{
    bytes.iter().all(|byte| Fate::try_from(*byte).is_ok())
}

// The fates of those that do, in memory of their own. A pass of its own: of a `collect` into an Option no proof tells when it is None.
fn spell(heap: Global, bytes: &[u8]) -> Result<VecDeque<Fate>, AllocError>
    ensures { IfOk result (λ fates. fates.items ≡ filter_map (λ byte. result_ok (read_mark byte)) bytes.now) }
{
    bytes
        .iter()
        .filter_map(|byte| Fate::try_from(*byte).ok())
        .collect(heap)
}

// The fates of a line made of the bytes.
#[tactic(auto, using(crate::proofs::Marked::all_read))]
pub(crate) fn fates_of(heap: Global, bytes: &[u8]) -> Result<VecDeque<Fate>, AllocError>
    ensures { IfOk result (λ fates. fates.items ≡ fates_of bytes.now) }
{
    if bytes.len() <= MOST_FATES && are_marks(bytes) {
        return spell(heap, bytes);
    }
    Ok(VecDeque::new(heap))
}

// Uses up the next fate; without fates left, to pass.
pub(crate) fn take_fate(fates: &mut VecDeque<Fate>) -> Fate
    ensures fate { result ≡ next_fate fates.old.items }
    ensures left { fates.new.items ≡ left_after fates.old.items }
{
    fates.pop_front().unwrap_or(Fate::Pass)
}
