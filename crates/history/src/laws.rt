// The theorem on histories, for every provider.
ghost use Rattle.history.specs.Promises.{HistoriesStand};
ghost use Rattle.history.specs.Sources.{publishing_source, source};

use provider::providers::Provider;
use provider::publishing::Publishing;

/// Every history of calls on a new client over this provider stands, if its outcomes are the ones that the rules define.
pub fn histories_stand<P: Provider>(provider: &P)
    ensures { HistoriesStand (source P.Provider) provider.now }
{}

/// The same with publications. A law of its own, since it is the bound that says what a provider's publications do; one lemma proves both.
pub fn publishing_histories_stand<P: Publishing>(provider: &P)
    ensures { HistoriesStand (publishing_source P.Provider P.Publishing.own) provider.now }
{}
