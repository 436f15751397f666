ghost use Rattle.std.specs.Prelude.{◌≡◌, ◌≢◌, ◌<◌, All, AllPairs, Contains, IfOk, length};
ghost use Rattle.plan_terms.specs.Terms.{Entry, case_of, graph, IsSurvivable};
ghost use Rattle.metric_cut.specs.Cuts.{IsCutOf};
ghost use Rattle.turn_lock.specs.Passes.{Seen};
ghost use Rattle.separator.specs.Separators.{AreAnswersUntilCut, AreStateAnswers, Frame, IsSeenHistory, IsSpotIn, SeesMore, SeparatesAt, cuts_answered, cuts_since};

use crate::answers::StateAnswer;
use metric_cut::Cut;
use net_core::{Caps, Instance, List, NoMemory};
use outside_io::RoundFigures;
use plan_types::Spot;

/// A separator: it tells of each state whether capacities carry the demands there, and puts the cuts that they violate into the pool
/// of a history. It has seen a history, which others may write too, and knows which entries are its own.
pub trait Separate {
    /// Plain data that no call changes.
    type Mark;

    /// What no call changes: the network, whose states are asked, the states, and the mark.
    ghost frame: { Self → Frame Self.Mark };

    /// The history that it has seen, and the entries in it that it has committed, in their order.
    ghost seen_of: { Self → Seen Entry };

    /// Puts a cut of the network and the states into the pool, if it isn't there and there is room for it, and tells its place.
    /// Out of memory, it may have seen more of the history even so.
    fn admit(&mut self, cut: Cut) -> Result<Spot, NoMemory>
        requires { IsCutOf (graph (frame self.old).network (frame self.old).states cut.state.0) cut }
        ensures frame { frame self.new ≡ frame self.old }
        ensures more { SeesMore (seen_of self.old) (seen_of self.new) }
        ensures only { All (λ c. c ≡ (cut.state.0, cut.lengths)) (cuts_since (seen_of self.old) (seen_of self.new)) }
        ensures spot { IfOk result (IsSpotIn (seen_of self.new).history (cut.state.0, cut.lengths)) };

    /// Asks of each state whether the capacities, one number for each link over a scale, carry the demands there. Where they don't, one
    /// cut that they violate is put into the pool, while there is room. Out of memory, some cuts may have been put there even so.
    fn separate(&mut self, instance: &Instance, caps: &Caps) -> Result<List<StateAnswer>, NoMemory>
        requires net { instance.now.net.now ≡ (frame self.old).network }
        requires listed { instance.now.states.now ≡ (frame self.old).states }
        requires survivable { IsSurvivable (case_of instance.now) }
        requires scale { 0 < caps.now.scale }
        requires caps { length caps.now.nums ≡ length instance.now.net.now.links }
        ensures frame { frame self.new ≡ frame self.old }
        ensures more { SeesMore (seen_of self.old) (seen_of self.new) }
        ensures separating { ∥ All (SeparatesAt (case_of instance.now) caps.now) (cuts_since (seen_of self.old) (seen_of self.new)) ∥₁ }
        ensures different { AllPairs (λ x y. x.0 ≢ y.0) (cuts_since (seen_of self.old) (seen_of self.new)) }
        ensures answers { IfOk result (λ answers. ∥ AreStateAnswers (case_of instance.now) caps.now (seen_of self.new).history answers ∥₁) }
        ensures answered { IfOk result (λ answers. All (Contains (cuts_answered answers)) (cuts_since (seen_of self.old) (seen_of self.new))) };

    /// Asks of states whether the capacities, one number for each link over a scale, carry the demands there, until they don't in one: a
    /// round that stops early. What is answered are cuts that the capacities violate, of different states and in any order; where no cut is
    /// found, each state is answered, in their order. Each cut is put into the pool, while there is room. Out of memory, some cuts may have
    /// been put there even so.
    fn separate_until_cut(
        &mut self,
        instance: &Instance,
        caps: &Caps,
    ) -> Result<List<StateAnswer>, NoMemory>
        requires net { instance.now.net.now ≡ (frame self.old).network }
        requires listed { instance.now.states.now ≡ (frame self.old).states }
        requires survivable { IsSurvivable (case_of instance.now) }
        requires scale { 0 < caps.now.scale }
        requires caps { length caps.now.nums ≡ length instance.now.net.now.links }
        ensures frame { frame self.new ≡ frame self.old }
        ensures more { SeesMore (seen_of self.old) (seen_of self.new) }
        ensures separating { ∥ All (SeparatesAt (case_of instance.now) caps.now) (cuts_since (seen_of self.old) (seen_of self.new)) ∥₁ }
        ensures different { AllPairs (λ x y. x.0 ≢ y.0) (cuts_since (seen_of self.old) (seen_of self.new)) }
        ensures answers { IfOk result (λ answers. ∥ AreAnswersUntilCut (case_of instance.now) caps.now (seen_of self.new).history answers ∥₁) }
        ensures answered { IfOk result (λ answers. All (Contains (cuts_answered answers)) (cuts_since (seen_of self.old) (seen_of self.new))) };

    /// Takes note of where the planning is, at the end of a round. No answer depends on it.
    fn note(&self, figures: RoundFigures);

    /// What has been seen keeps the limits of a history, and the own entries are in it.
    ghost seen: { (s : Self) → ∥ IsSeenHistory (frame s).network (frame s).states (seen_of s) ∥₁ };
}
