// The checks that every fetch begins with, and the answer that a page gives.
ghost use Rattle.std.specs.Prelude.{◌≡◌, ◌==◌};
ghost use Rattle.zone.specs.Refusals.{answered, outcome};
ghost use Rattle.provider.specs.Fetching.{checked, inside_answer, judged, Leaves, RowsTold};

use super::requests::{Reply, Request, Tag, Version};
use cutting::cuts::{cut_rows, cut_window};
use cutting::filling::is_cut_small;
use zone::deciding::is_table;
use zone::intervals::ERA;
use zone::refusals::Refusal;
use zone::rows::{Interval, Row};
use zone::windows::Window;

/// The first three checks of a fetch: the name (1), the interval in the era (2) and inside the span (3).
pub fn check(request: &Request, span: Interval) -> Result<(), Refusal>
    ensures { outcome result ≡ checked request.now span (answered tt) }
{
    if !request.name.is_valid() {
        return Err(Refusal::BadName);
    }
    if !request.interval.is_within(ERA) {
        return Err(Refusal::BadInterval);
    }
    if !request.interval.is_within(span) {
        return Err(Refusal::OutsideSpan);
    }
    Ok(())
}

impl Request {
    // Whether the asker has the page of this tag; both answers below ask it.
    fn knows(&self, tag: Tag) -> bool
        ensures { result ≡ (tag == self.now.known) }
    {
        tag == self.known
    }
}

// Two functions: these rows are tested and may be cut to too many, while a window keeps its facts. What an answer leaves in the window that is lent stands in each contract, since it is about no value of its own.
/// The answer from a page of rows over the interval `of`. Refused with 13 where the rows are no table's, with 3 where the interval asked for is not inside, with 6 where its cut has too many rows.
pub fn answer_rows(
    of: Interval,
    rows: &[Row],
    version: Version,
    request: Request,
    place: &mut Window,
) -> Result<Reply, Refusal>
    ensures { RowsTold of version.edition request (record { tag = version.tag; rows = rows.now }) result place.old place.new }
{
    let Version { edition, tag } = version;
    if !is_table(of, rows) {
        return Err(Refusal::NotATable);
    }
    if !request.interval.is_within(of) {
        return Err(Refusal::OutsideSpan);
    }
    if !is_cut_small(rows, request.interval) {
        return Err(Refusal::TooManyRows { edition });
    }
    if request.knows(tag) {
        return Ok(Reply::Unchanged { edition });
    }
    cut_rows(of, rows, request.interval, place).unwrap();
    Ok(Reply::Fresh { edition, tag })
}

/// The answer from a page that a window holds. Refused with 3 where the interval asked for is not inside.
#[tactic(auto, using(crate::proofs::Pages::window_cut))]
pub fn answer_window(
    window: &Window,
    version: Version,
    request: Request,
    place: &mut Window,
) -> Result<Reply, Refusal>
    ensures told { judged result place.new ≡ inside_answer window.now.interval version.edition request (record { tag = version.tag; rows = window.now.rows.items }) }
    ensures leaves { Leaves result request.interval place.old place.new }
{
    let Version { edition, tag } = version;
    if !request.interval.is_within(window.interval) {
        return Err(Refusal::OutsideSpan);
    }
    if request.knows(tag) {
        return Ok(Reply::Unchanged { edition });
    }
    cut_window(window, request.interval, place).unwrap();
    Ok(Reply::Fresh { edition, tag })
}
