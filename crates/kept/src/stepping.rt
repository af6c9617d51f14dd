// What is kept over an interval, what is asked below, and what is done with the answer.
ghost use Rattle.std.specs.Prelude.{◌≡◌};
ghost use Rattle.std.specs.Option.{option_map};
ghost use Rattle.kept.specs.Keeping.{if_contains, kept, kept_in, label_of, serving as serving_of};
ghost use Rattle.kept.specs.Stepping.{is_older, sent, step as step_by, step_beside, step_over};

use super::places::{Label, Place, Places};
use super::steps::Step;
use provider::requests::{Edition, Reply, Request};
use zone::refusals::Refusal;
use zone::rows::Interval;

impl Place {
    // The label of its page, if that contains the interval.
    fn serving(&self, interval: Interval) -> Option<Label>
        ensures { result ≡ option_map label_of (if_contains interval (kept_in self.now)) }
    {
        self.label
            .filter(|_| interval.is_within(self.window.interval))
    }
}

// Whether the refusal is silence, or 5 or 6 by an edition below the one that is held.
fn is_older(held: Edition, refusal: Refusal) -> bool
    ensures { result ≡ is_older held refusal }
{
    match refusal {
        Refusal::Silent => true,
        Refusal::NoPage { edition } | Refusal::TooManyRows { edition } => edition < held,
        _ => false,
    }
}

// What is done where a page of the edition that is held contains the interval.
fn step_over(held: Edition, reply: Result<Reply, Refusal>) -> Step
    ensures { result ≡ step_over held reply }
{
    match reply {
        Err(refusal) if is_older(held, refusal) => Step::Serve { edition: held },
        Err(_) => Step::PassOn,
        Ok(Reply::Unchanged { edition }) => Step::Renew {
            edition: held.max(edition),
        },
        Ok(Reply::Fresh { edition, .. }) if edition < held => Step::Serve { edition: held },
        Ok(Reply::Fresh { edition, tag }) => Step::Take { edition, tag },
    }
}

// What is done where no kept page contains the interval.
fn step_beside(reply: Result<Reply, Refusal>) -> Step
    ensures { result ≡ step_beside reply }
{
    match reply {
        Err(_) | Ok(Reply::Unchanged { .. }) => Step::PassOn,
        Ok(Reply::Fresh { edition, tag }) => Step::Take { edition, tag },
    }
}

impl Places {
    // The label of the page that is kept of the name, if that contains the interval.
    fn serving(&self, request: &Request) -> Option<Label>
        ensures { result ≡ option_map label_of (serving_of (kept self.now) request.now.name request.now.interval) }
    {
        let i = self.find(&request.name)?;
        self.places[i].serving(request.interval)
    }

    /// The request to send below: with the tag of the page that is kept of the name, if that contains the interval, else as it is.
    pub fn request_below(&self, request: Request) -> Request
        ensures { result ≡ sent (kept self.now) request }
    {
        match self.serving(&request) {
            None => request,
            Some(label) => Request {
                known: label.version.tag,
                ..request
            },
        }
    }

    // What is done with the answer from below.
    pub(crate) fn step(&self, request: &Request, reply: Result<Reply, Refusal>) -> Step
        ensures { result ≡ step_by (serving_of (kept self.now) request.now.name request.now.interval) reply }
    {
        match self.serving(request) {
            None => step_beside(reply),
            Some(label) => step_over(label.version.edition, reply),
        }
    }
}
