ghost use Rattle.std.specs.Prelude.{◌≡◌, ◌^◌, ◌+◌, ◌<◌, Some, All, IfOk, IfSome, None, length, slice_get, ℕ};
ghost use Rattle.plan_terms.specs.Terms.{Routing, case_of, AreCounts, AreWithinLimits, capacities, IsSurvivable};
ghost use Rattle.able_counts.specs.AbleTests.{AreKeptOrWithin, AreRoutingsWithin, IsRoutingWithin, IsRoutingOf, IsStopAt, IsTestOf, whole_caps};

use crate::cuts::{known_cut, last_violated};
use crate::nodes::short_state;
use crate::quick::{quick_stop, set_stop};
use crate::state_stop::state_stop;
use crate::stop::{Stop, is_cut, later};
use module_choice::capacities;
use net_core::{
    Caps, Copied, Counts, CutLine, Instance, List, NoMemory, RouteTask, Routing, StateId,
    Surviving, discard,
};
use std::alloc::Global;
use warm_routing::WarmRouter;

/// A test of counts of modules, with what earlier questions have taught it: cuts, and the last routing of each state. Its answers are about
/// the counts alone; what it keeps makes later ones cheaper.
#[derive(Drop)]
pub struct AbleTest {
    alloc: Global,
    /// The cuts that it knows, the newest last.
    cuts: List<CutLine>,
    routings: List<Routing>,
    /// The state in which a cut was found last.
    refused: u32,
    /// The basis that the last routing program has left.
    warm: WarmRouter,
}

/// The state some places after another in the ring of states, where the first one follows the last.
fn state_after(first: u32, places: u32, count: u32) -> StateId
    requires { 0 < count }
    ensures { result.0 < count }
{
    StateId(((first as u64 + places as u64) % count as u64) as u32)
}

impl AbleTest {
    /// A test that knows no cuts yet, with a routing for each state, within whatever capacities. It takes constant time, and copies
    /// nothing.
    pub fn new(
        alloc: Global,
        instance: &Instance,
        routings: List<Routing>,
    ) -> Result<AbleTest, NoMemory>
        requires states { length routings ≡ length instance.now.states.now.listed + 1 }
        requires each { (s : ℕ) (r : Routing) → slice_get routings s ≡ Some r → IsRoutingOf (case_of instance.now) s r }
        ensures sound { IfOk result (IsTestOf (case_of instance.now)) }
        ensures routings { IfOk result (λ t. t.routings ≡ routings) }
    {
        Ok(AbleTest {
            alloc,
            cuts: List::new(alloc),
            routings,
            refused: 0,
            warm: WarmRouter::new(alloc),
        })
    }

    /// Adds a cut to the known ones: that of the given one's state and lengths, with its right side at the demands. If these make no cut,
    /// nothing is added. It takes the time and the memory of `Cut::in_graph`.
    pub fn know(&mut self, instance: &Instance, given: &CutLine) -> Result<(), NoMemory>
        requires sound { IsTestOf (case_of instance.now) self.old }
        ensures sound { IsTestOf (case_of instance.now) self.new }
        ensures routings { self.new.routings ≡ self.old.routings }
    {
        if let Some(line) = known_cut(self.alloc, instance, given)? {
            self.cuts.push(line)?;
        }
        Ok(())
    }

    /// The routings, one for each state. After `stop` has answered `None` they are within the capacities of its counts, until it is asked
    /// again. It takes constant time.
    pub fn routings(&self) -> &List<Routing>
        ensures { result.now ≡ self.now.routings }
    {
        &self.routings
    }

    /// The routings, moved out. It takes constant time.
    pub fn into_routings(self) -> List<Routing>
        ensures { result ≡ self.routings }
    {
        self.routings
    }

    /// Adds a copy of a cut that a state gave to the known ones, and notes the state. Evidence isn't kept.
    fn keep_cut(
        &mut self,
        instance: &Instance,
        state: StateId,
        caps: &Caps,
        stop: &Stop,
    ) -> Result<(), NoMemory>
        requires sound { IsTestOf (case_of instance.now) self.old }
        requires stop { IsStopAt (case_of instance.now) caps.now stop.now }
        ensures sound { IsTestOf (case_of instance.now) self.new }
        ensures routings { self.new.routings ≡ self.old.routings }
    {
        match stop {
            Stop::Cut(line) => {
                self.refused = state.0;
                self.cuts.push(line.copy()?)?;
                Ok(())
            }
            Stop::Wide(_) => Ok(()),
        }
    }

    /// Adds a copy of the cut that a state gave to the known ones, if it gave one, and notes the state.
    fn keep(
        &mut self,
        instance: &Instance,
        state: StateId,
        caps: &Caps,
        found: &Option<Stop>,
    ) -> Result<(), NoMemory>
        requires sound { IsTestOf (case_of instance.now) self.old }
        requires stop { IfSome found.now (IsStopAt (case_of instance.now) caps.now) }
        ensures sound { IsTestOf (case_of instance.now) self.new }
        ensures routings { self.new.routings ≡ self.old.routings }
    {
        match found {
            Some(stop) => self.keep_cut(instance, state, caps, stop),
            None => Ok(()),
        }
    }

    /// Why capacities don't carry the demands in a state. Where they do, the state's routing becomes one within them.
    fn stop_in<'a>(
        &mut self,
        instance: &Instance<'a>,
        state: StateId,
        caps: &'a Caps,
    ) -> Result<Option<Stop>, NoMemory>
        requires sound { IsTestOf (case_of instance.now) self.old }
        requires state { state.0 < length instance.now.states.now.listed + 1 }
        requires survivable { IsSurvivable (case_of instance.now) }
        requires scale { caps.now.scale ≡ 1 }
        requires count { length caps.now.nums ≡ length instance.now.net.now.links }
        requires narrow { All (λ n. n < 2 ^ 62) caps.now.nums }
        ensures sound { IsTestOf (case_of instance.now) self.new }
        ensures kept { AreKeptOrWithin (case_of instance.now) caps.now.nums self.old.routings self.new.routings }
        ensures carried { IfOk result (λ o. o ≡ None → (r : Routing) → slice_get self.new.routings state.0 ≡ Some r
            → IsRoutingWithin (case_of instance.now) state.0 caps.now.nums r) }
        ensures stop { IfOk result (λ o. IfSome o (IsStopAt (case_of instance.now) caps.now)) }
    {
        let at = state.0 as usize;
        let task = RouteTask {
            graph: Surviving {
                net: instance.net,
                states: instance.states,
                state,
            },
            demands: instance.demands,
            caps,
        };
        let found = state_stop(
            self.alloc,
            &task,
            &mut self.warm,
            &mut self.routings.items_mut()[at],
        )?;
        self.keep(instance, state, caps, &found)?;
        Ok(found)
    }

    /// A cut that capacities violate in a state, if one is found without solving a program.
    fn quick_stop_in<'a>(
        &mut self,
        instance: &Instance<'a>,
        state: StateId,
        caps: &'a Caps,
    ) -> Result<Option<Stop>, NoMemory>
        requires sound { IsTestOf (case_of instance.now) self.old }
        requires state { state.0 < length instance.now.states.now.listed + 1 }
        requires scale { caps.now.scale ≡ 1 }
        requires count { length caps.now.nums ≡ length instance.now.net.now.links }
        requires narrow { All (λ n. n < 2 ^ 62) caps.now.nums }
        ensures sound { IsTestOf (case_of instance.now) self.new }
        ensures kept { AreKeptOrWithin (case_of instance.now) caps.now.nums self.old.routings self.new.routings }
        ensures stop { IfOk result (λ o. IfSome o (IsStopAt (case_of instance.now) caps.now)) }
    {
        let at = state.0 as usize;
        let task = RouteTask {
            graph: Surviving {
                net: instance.net,
                states: instance.states,
                state,
            },
            demands: instance.demands,
            caps,
        };
        let found = quick_stop(self.alloc, &task, &mut self.routings.items_mut()[at])?;
        self.keep(instance, state, caps, &found)?;
        Ok(found)
    }

    /// A cut of a set of nodes that capacities violate, looked for in the first state in which the links of some node have too little.
    fn short_stop<'a>(
        &mut self,
        instance: &Instance<'a>,
        caps: &'a Caps,
    ) -> Result<Option<Stop>, NoMemory>
        requires sound { IsTestOf (case_of instance.now) self.old }
        requires scale { caps.now.scale ≡ 1 }
        requires count { length caps.now.nums ≡ length instance.now.net.now.links }
        ensures sound { IsTestOf (case_of instance.now) self.new }
        ensures routings { self.new.routings ≡ self.old.routings }
        ensures stop { IfOk result (λ o. IfSome o (IsStopAt (case_of instance.now) caps.now)) }
    {
        match short_state(self.alloc, instance, caps)? {
            Some(state) => {
                let task = RouteTask {
                    graph: Surviving {
                        net: instance.net,
                        states: instance.states,
                        state,
                    },
                    demands: instance.demands,
                    caps,
                };
                let found = set_stop(self.alloc, &task)?;
                self.keep(instance, state, caps, &found)?;
                Ok(found)
            }
            None => Ok(None),
        }
    }

    /// A cut that capacities violate in some state, if one is found without solving a program; the state that refused last is tried first.
    fn quick_stop(&mut self, instance: &Instance, caps: &Caps) -> Result<Option<Stop>, NoMemory>
        requires sound { IsTestOf (case_of instance.now) self.old }
        requires scale { caps.now.scale ≡ 1 }
        requires count { length caps.now.nums ≡ length instance.now.net.now.links }
        requires narrow { All (λ n. n < 2 ^ 62) caps.now.nums }
        ensures sound { IsTestOf (case_of instance.now) self.new }
        ensures kept { AreKeptOrWithin (case_of instance.now) caps.now.nums self.old.routings self.new.routings }
        ensures stop { IfOk result (λ o. IfSome o (IsStopAt (case_of instance.now) caps.now)) }
    {
        let (first, count) = (self.refused, instance.states.count());
        for places in 0..count {
            let state = state_after(first, places, count);
            if let Some(stop) = self.quick_stop_in(&*instance, state, caps)? {
                return Ok(Some(stop));
            }
        }
        Ok(None)
    }

    /// Why capacities don't carry the demands in some state. The states are asked in their order until one gives a cut; if none does,
    /// evidence of one.
    fn stop_in_turn(&mut self, instance: &Instance, caps: &Caps) -> Result<Option<Stop>, NoMemory>
        requires sound { IsTestOf (case_of instance.now) self.old }
        requires survivable { IsSurvivable (case_of instance.now) }
        requires scale { caps.now.scale ≡ 1 }
        requires count { length caps.now.nums ≡ length instance.now.net.now.links }
        requires narrow { All (λ n. n < 2 ^ 62) caps.now.nums }
        ensures sound { IsTestOf (case_of instance.now) self.new }
        ensures kept { AreKeptOrWithin (case_of instance.now) caps.now.nums self.old.routings self.new.routings }
        ensures carried { IfOk result (λ o. o ≡ None → AreRoutingsWithin (case_of instance.now) caps.now.nums self.new.routings) }
        ensures stop { IfOk result (λ o. IfSome o (IsStopAt (case_of instance.now) caps.now)) }
    {
        let mut wide = None;
        for s in 0..instance.states.count() {
            let found = self.stop_in(&*instance, StateId(s), caps)?;
            if is_cut(&found) {
                discard(wide);
                return Ok(found);
            }
            wide = later(wide, found);
        }
        Ok(wide)
    }

    /// Why capacities don't carry the demands in some state. A program is solved only where no state has a cut that is found without.
    fn stop_within(&mut self, instance: &Instance, caps: &Caps) -> Result<Option<Stop>, NoMemory>
        requires sound { IsTestOf (case_of instance.now) self.old }
        requires survivable { IsSurvivable (case_of instance.now) }
        requires scale { caps.now.scale ≡ 1 }
        requires count { length caps.now.nums ≡ length instance.now.net.now.links }
        requires narrow { All (λ n. n < 2 ^ 62) caps.now.nums }
        ensures sound { IsTestOf (case_of instance.now) self.new }
        ensures kept { AreKeptOrWithin (case_of instance.now) caps.now.nums self.old.routings self.new.routings }
        ensures carried { IfOk result (λ o. o ≡ None → AreRoutingsWithin (case_of instance.now) caps.now.nums self.new.routings) }
        ensures stop { IfOk result (λ o. IfSome o (IsStopAt (case_of instance.now) caps.now)) }
    {
        if let Some(stop) = self.short_stop(instance, caps)? {
            return Ok(Some(stop));
        }
        if let Some(stop) = self.quick_stop(instance, caps)? {
            return Ok(Some(stop));
        }
        self.stop_in_turn(instance, caps)
    }

    /// Why counts of modules aren't known to carry the demands in all states: a cut of some state, or else evidence of one. `None` if they
    /// carry them; then `routings` has a routing for each state within their capacities. No state separates a demand.
    ///
    /// Cheap questions come first: the known cuts, the newest first; then each state whose last routing isn't within the capacities, the
    /// one that refused last before the others, where the last routing is mended, or else a violated set of nodes looked for. Only then a
    /// program is solved, for each state that still has neither, beginning with the paths of its last routing.
    ///
    /// It takes the time of `separate_state` for each program. Each cut that it finds is kept. It fails only where memory runs out.
    pub fn stop(&mut self, instance: &Instance, counts: &Counts) -> Result<Option<Stop>, NoMemory>
        requires sound { IsTestOf (case_of instance.now) self.old }
        requires survivable { IsSurvivable (case_of instance.now) }
        requires shape { AreCounts instance.now.net.now.links counts.now }
        requires limits { AreWithinLimits instance.now.net.now.links counts.now }
        ensures sound { IsTestOf (case_of instance.now) self.new }
        ensures kept { AreKeptOrWithin (case_of instance.now) (capacities instance.now.net.now.links counts.now) self.old.routings self.new.routings }
        ensures carried { IfOk result (λ o. o ≡ None
            → AreRoutingsWithin (case_of instance.now) (capacities instance.now.net.now.links counts.now)
            self.new.routings) }
        ensures stop { IfOk result (λ o. IfSome o (IsStopAt (case_of instance.now) (whole_caps (capacities instance.now.net.now.links counts.now)))) }
    {
        let caps = capacities(self.alloc, instance.net, counts)?;
        if let Some(line) = last_violated(self.cuts.items(), &caps)? {
            return Ok(Some(Stop::Cut(line)));
        }
        self.stop_within(instance, &caps)
    }
}
