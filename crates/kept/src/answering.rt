// The answer to a fetch, from what is kept and from what below answered.
ghost use Rattle.std.specs.Prelude.{◌≡◌};
ghost use Rattle.provider.specs.Fetching.{judged, Leaves};
ghost use Rattle.kept.specs.Keeping.{kept, kept_for, kept_in};
ghost use Rattle.kept.specs.Stepping.{answer_after, from_kept, kept_after};

use super::places::{Label, Place, Places};
use super::steps::Step;
use provider::answers::answer_window;
use provider::requests::{Edition, Reply, Request, Version};
use zone::refusals::Refusal;
use zone::windows::Window;

impl Place {
    // The answer from its page as of an edition; silence where it keeps none.
    fn answer(
        &self,
        edition: Edition,
        request: Request,
        place: &mut Window,
    ) -> Result<Reply, Refusal>
        ensures told { judged result place.new ≡ from_kept edition request (kept_in self.now) }
        ensures leaves { Leaves result request.interval place.old place.new }
    {
        let label = self.label.ok_or(Refusal::Silent)?;
        let version = Version {
            edition,
            ..label.version
        };
        answer_window(&self.window, version, request, place)
    }
}

impl Places {
    // The answer from the page that is kept of the name, as of an edition; silence where none is.
    fn answer(
        &self,
        edition: Edition,
        request: Request,
        place: &mut Window,
    ) -> Result<Reply, Refusal>
        ensures told { judged result place.new ≡ from_kept edition request (kept_for (kept self.now) request.name) }
        ensures leaves { Leaves result request.interval place.old place.new }
    {
        let i = self.find(&request.name).ok_or(Refusal::Silent)?;
        self.places[i].answer(edition, request, place)
    }

    /// Answers the request, where below replied so to the request that was sent and left this in the window that it was lent; and keeps what is to be kept of it.
    pub fn receive(
        &mut self,
        request: Request,
        reply: Result<Reply, Refusal>,
        window: &mut Window,
        place: &mut Window,
    ) -> Result<Reply, Refusal>
        ensures told { judged result place.new ≡ answer_after (kept self.old) request reply window.old }
        ensures leaves { Leaves result request.interval place.old place.new }
        ensures kept { kept self.new ≡ kept_after (kept self.old) request reply window.old }
    {
        match self.step(&request, reply) {
            Step::PassOn => reply,
            Step::Serve { edition } => self.answer(edition, request, place),
            Step::Renew { edition } => {
                let answer = self.answer(edition, request, place);
                self.renew(&request.name, edition);
                answer
            }
            Step::Take { edition, tag } => {
                let name = request.name;
                let version = Version { edition, tag };
                let answer = answer_window(window, version, request, place);
                self.keep(Label { name, version }, window);
                answer
            }
        }
    }
}
