ghost use Rattle.std.specs.Prelude.{◌≡◌, [], ◌+◌, ◌*◌, ◌^◌, ◌≤◌, ◌<◌, All, IfOk, OnOk, false, length, map, take};
ghost use Rattle.plan_terms.specs.Terms.{AreDemands, IsSurvivable, case, case_of};
ghost use Rattle.plan_types.specs.Terms.{IsCertifiedPlan};
ghost use Rattle.tree_boxes.specs.Terms.{IsRoutedPlan, IsCheaperPlan, AreCheaperCounts, IsKnown, IsOwnCert, IsSearch, IsSoundEntry, IsTestOf, cuts_among, handed_in};
ghost use Rattle.net_core.specs.Limits.{most_splits};
ghost use Rattle.tree_search.{specs.FewSplits.AreCharged, specs.Proving.{AreHandedCuts, IsProofOf, ShowsBound, ShowsCheapest}, specs.inner.Making.{AreFirstOf, IsProofMade, IsProofWith}};

use crate::growth::{Growth, grown};
use crate::own_cert::own_cert;
use crate::tree::{Tree, finished};
use able_counts::AbleTest;
use line_maker::{Entry, Ordered, in_order};
use net_core::{Copied, CutLine, Instance, List, Network, NoMemory, States, discard};
use outside_io::Gate;
use plan_swaps::swap;
use plan_types::Plan;
use std::alloc::Global;
use std::mem;
use tree_boxes::{
    Aim, Cheaper, Known, MOST_FURTHER, MOST_SET_CUTS, Search, empty_cert, first_items,
};
use tree_check::{BoxCert, Proof};

/// The plan with the counts, the cost and the routings of cheaper counts.
fn with_cheaper(plan: Plan, cheaper: Cheaper) -> Plan
    ensures { result ≡ record plan { counts = cheaper.counts; cost = cheaper.cost; routings = cheaper.routings } }
{
    Plan {
        counts: cheaper.counts,
        cost: cheaper.cost,
        routings: cheaper.routings,
        ..plan
    }
}

/// The plan with cheaper counts, made cheaper still by exchanges of modules.
fn cheaper_plan(
    alloc: Global,
    instance: &Instance,
    plan: Plan,
    cheaper: Cheaper,
) -> Result<Plan, NoMemory>
    requires survivable { IsSurvivable (case_of instance.now) }
    requires demands { plan.demands ≡ instance.now.demands.now }
    requires routed { IsRoutedPlan (case_of instance.now) plan }
    requires cheaper { AreCheaperCounts (case_of instance.now) plan.cost cheaper }
    ensures plan { IfOk result (IsCheaperPlan (case_of instance.now) plan) }
    ensures less { IfOk result (λ r. r.cost < plan.cost) }
{
    swap(alloc, instance, with_cheaper(plan, cheaper))
}

/// What is known of the first `most` cuts of the entries, without any line.
fn first_known(
    alloc: Global,
    instance: &Instance,
    entries: List<Entry>,
    most: usize,
    divides: bool,
) -> Result<Known, NoMemory>
    requires few { length entries < 2 ^ 31 }
    requires most { most < length entries }
    requires sound { All (IsSoundEntry (case_of instance.now)) entries }
    ensures known { IfOk result (IsKnown (case_of instance.now)) }
    ensures entries { IfOk result (λ k. k.entries ≡ map Entry.Cut (take most (cuts_among entries))) }
    ensures divides { IfOk result (λ k. k.divides ≡ divides) }
{
    let none = List::new(alloc);
    let Ordered { cuts, .. } = in_order(alloc, entries, none)?;
    Known::new(alloc, instance, first_items(cuts, most), divides)
}

/// If more than `most` entries are known, forgets all but the first `most` cuts.
fn keep_first(
    alloc: Global,
    instance: &Instance,
    known: &mut Known,
    most: usize,
) -> Result<(), NoMemory>
    requires { IsKnown (case_of instance.now) known.old }
    ensures known { OnOk result (IsKnown (case_of instance.now) known.new) }
    ensures entries { OnOk result (AreFirstOf most known.old.entries known.new) }
    ensures divides { OnOk result (known.new.divides ≡ known.old.divides) }
{
    if known.entries.len() <= most {
        return Ok(());
    }
    let mut entries = List::new(alloc);
    mem::swap(&mut known.entries, &mut entries);
    *known = first_known(alloc, instance, entries, most, known.divides)?;
    Ok(())
}

/// Keeps what a search has learned for the next tree, but no more than the room for cuts and lines, so that entries don't pile up from tree
/// to tree.
fn begin_anew(alloc: Global, instance: &Instance, search: &mut Search) -> Result<(), NoMemory>
    requires { IsSearch (case_of instance.now) search.old }
    ensures search { OnOk result (IsSearch (case_of instance.now) search.new) }
    ensures handed { OnOk result (handed_in search.new ≡ handed_in search.old) }
    ensures divides { OnOk result (search.new.known.divides ≡ search.old.known.divides) }
    ensures few { OnOk result (length search.new.known.entries ≤ search.new.room) }
    ensures room { OnOk result (search.new.room ≡ search.old.room) }
{
    keep_first(alloc, instance, &mut search.known, search.room)?;
    Ok(())
}

/// The entries of a search.
fn entries_of(search: Search) -> List<Entry>
    ensures { result ≡ search.known.entries }
{
    search.known.entries
}

/// The proof with a tree. The cuts and lines that its nodes name are put into the order of a proof.
fn proof_of(alloc: Global, plan: Plan, entries: List<Entry>, tree: Tree) -> Result<Proof, NoMemory>
    requires { length entries < 2 ^ 31 }
    ensures { IfOk result (IsProofMade plan entries tree.twigs.items) }
{
    let (nodes, verdict) = finished(alloc, tree, plan.cost)?;
    let Ordered { cuts, lines, tree } = in_order(alloc, entries, nodes)?;
    Ok(Proof {
        plan,
        cuts,
        lines,
        tree,
        verdict,
    })
}

/// The proof of a plan. Whenever cheaper counts are found, the plan gets these, and a new tree is grown.
fn proved<'a, G: Gate>(
    alloc: Global,
    instance: &'a Instance<'a>,
    plan: Plan,
    own: &'a BoxCert,
    search: Search,
    limit: u32,
    gate: &G,
) -> Result<Proof, NoMemory>
    requires limit { limit ≤ most_splits }
    requires survivable { IsSurvivable (case_of instance.now) }
    requires demands { plan.demands ≡ instance.now.demands.now }
    requires routed { IsRoutedPlan (case_of instance.now) plan }
    requires certified { IsCertifiedPlan (case_of instance.now) plan }
    requires search { IsSearch (case_of instance.now) search }
    requires few { length search.known.entries ≤ search.room }
    requires room { search.room ≤ 3 * length (handed_in search) + 6144 }
    requires own { IsOwnCert (map Entry.Cut (handed_in search)) plan own.now }
    ensures { IfOk result (IsProofWith (case_of instance.now) search.known.divides plan (handed_in search) limit) }
{
    let mut plan = plan;
    let mut search = search;
    let mut root = empty_cert(alloc);
    'attempt: loop {
        let aim = Aim {
            instance: &*instance,
            plan: &plan,
            own: &*own,
        };
        match grown(alloc, &aim, &mut search, &mut root, limit, gate)? {
            Growth::Cheaper(cheaper) => {
                plan = cheaper_plan(alloc, instance, plan, cheaper)?;
                begin_anew(alloc, instance, &mut search)?;
            }
            Growth::Tree(tree) => return proof_of(alloc, plan, entries_of(search), tree),
        }
    }
}

/// How many cuts and lines are kept at most, if `handed` cuts were handed in. With lines there is room for the cuts of node sets, for a
/// coarse line of each handed-in cut, and for one line of each cut from which table lines are made.
fn room_for(handed: usize, divides: bool) -> usize
    requires { handed ≤ 8192 }
    ensures enough { handed ≤ result }
    ensures small { result ≤ 2 ^ 15 }
    ensures thrice { result ≤ 3 * handed + 6144 }
{
    if divides {
        handed + handed + handed + MOST_SET_CUTS + MOST_SET_CUTS + MOST_FURTHER
    } else {
        handed + MOST_FURTHER
    }
}

/// A test of counts that begins with the routings of a plan.
fn test_of(alloc: Global, instance: &Instance, plan: &Plan) -> Result<AbleTest, NoMemory>
    requires demands { plan.now.demands ≡ instance.now.demands.now }
    requires routed { IsRoutedPlan (case_of instance.now) plan.now }
    ensures { IfOk result (IsTestOf (case_of instance.now)) }
{
    AbleTest::new(alloc, instance, plan.routings.copy()?)
}

/// A search that knows the handed-in cuts.
fn first_search(
    alloc: Global,
    instance: &Instance,
    plan: &Plan,
    cuts: List<CutLine>,
    divides: bool,
) -> Result<Search, NoMemory>
    requires demands { plan.now.demands ≡ instance.now.demands.now }
    requires routed { IsRoutedPlan (case_of instance.now) plan.now }
    requires cuts { AreHandedCuts (case_of instance.now) plan.now cuts }
    ensures search { IfOk result (IsSearch (case_of instance.now)) }
    ensures handed { IfOk result (λ s. handed_in s ≡ cuts) }
    ensures divides { IfOk result (λ s. s.known.divides ≡ divides) }
    ensures few { IfOk result (λ s. length s.known.entries ≤ s.room) }
    ensures room { IfOk result (λ s. s.room ≤ 3 * length cuts + 6144) }
{
    let handed = cuts.len();
    let known = Known::new(alloc, instance, cuts, divides)?;
    let test = test_of(alloc, instance, plan)?;
    Ok(Search {
        known,
        test,
        handed,
        room: room_for(handed, divides),
    })
}

/// The proof of a plan, or of a cheaper one, from handed-in cuts and the plan's certificate as one of boxes.
fn searched_from<'a, G: Gate>(
    alloc: Global,
    instance: &'a Instance<'a>,
    plan: Plan,
    own: &'a BoxCert,
    cuts: List<CutLine>,
    limit: u32,
    divides: bool,
    gate: &G,
) -> Result<Proof, NoMemory>
    requires limit { limit ≤ most_splits }
    requires survivable { IsSurvivable (case_of instance.now) }
    requires demands { plan.demands ≡ instance.now.demands.now }
    requires routed { IsRoutedPlan (case_of instance.now) plan }
    requires certified { IsCertifiedPlan (case_of instance.now) plan }
    requires cuts { AreHandedCuts (case_of instance.now) plan cuts }
    requires own { IsOwnCert (map Entry.Cut cuts) plan own.now }
    ensures { IfOk result (IsProofWith (case_of instance.now) divides plan cuts limit) }
{
    match first_search(alloc, instance, &plan, cuts, divides) {
        Ok(search) => proved(alloc, instance, plan, own, search, limit, gate),
        Err(no_memory) => {
            discard(plan);
            Err(no_memory)
        }
    }
}

/// The proof of a plan, or of a cheaper one, from handed-in cuts.
fn searched<G: Gate>(
    alloc: Global,
    instance: &Instance,
    plan: Plan,
    cuts: List<CutLine>,
    limit: u32,
    divides: bool,
    gate: &G,
) -> Result<Proof, NoMemory>
    requires limit { limit ≤ most_splits }
    requires survivable { IsSurvivable (case_of instance.now) }
    requires demands { plan.demands ≡ instance.now.demands.now }
    requires routed { IsRoutedPlan (case_of instance.now) plan }
    requires certified { IsCertifiedPlan (case_of instance.now) plan }
    requires cuts { AreHandedCuts (case_of instance.now) plan cuts }
    ensures { IfOk result (IsProofWith (case_of instance.now) divides plan cuts limit) }
{
    match own_cert(alloc, &plan, cuts.items()) {
        Ok(own) => searched_from(alloc, instance, plan, &own, cuts, limit, divides, gate),
        Err(no_memory) => {
            discard(plan);
            discard(cuts);
            Err(no_memory)
        }
    }
}

/// Searches for a branch tree that shows a plan to be cheapest, with at most `limit` splits.
///
/// The limit is at most 9,999, and all modules cost something. The plan carries its demands, has the cost of its counts and a certified
/// bound, and is in form and in lowest terms; its demands belong to the network, and no state separates one. The cuts are those of the
/// network with their right sides at the demands, at most 8,192, among them those of the plan's certificate.
///
/// The answer's plan is the given one with other counts, cost and routings, and costs at most as much: exchanges of modules and counts
/// found on the way make it cheaper. The tree is about this plan. The cuts that the search finds come after the given ones. The answer has
/// at most 6,145 more cuts than three times the given ones, and two more for each split of the limit.
///
/// If the tree has no open leaf, the verdict is `Cheapest`; else it is `Above`, with the least of the plan's cost and the open leaves'
/// values, in units of the network. An open leaf is `Spent` if the limit of splits was reached. It is `Stuck` if it has a single choice of
/// counts, at which a number of some state's routing program is too wide. The gate is told of each split. Whenever a cheaper plan is found,
/// a new tree is begun, and splits are counted from 0 again.
///
/// On the triangle with modules of 10.00 for 5.00 and a demand of 12.00 from A to C, two modules on each link are cheapest if each link
/// fails alone, for 30.00: AC is split at 1, then AB.
///
/// The box whose program is worth least is split first. Of up to eight modules it is split at the one for which the product of the rises of
/// the two sides is greatest. Each split takes up to nineteen programs with twice as many rows as modules, one more for each cut that a
/// whole point violates, and routing programs for whole points and for boxes with a single choice of counts. It takes memory for a number
/// per module and cut, and for the open boxes. It fails only where memory runs out.
pub fn prove<G: Gate>(
    alloc: Global,
    net: &Network,
    states: &States,
    plan: Plan,
    cuts: List<CutLine>,
    limit: u32,
    gate: &G,
) -> Result<Proof, NoMemory>
    requires limit { limit ≤ most_splits }
    requires charged { AreCharged net.now.links }
    requires belong { AreDemands (length net.now.nodes) plan.demands }
    requires survivable { IsSurvivable (case net.now states.now plan.demands) }
    requires routed { IsRoutedPlan (case net.now states.now plan.demands) plan }
    requires certified { IsCertifiedPlan (case net.now states.now plan.demands) plan }
    requires cuts { AreHandedCuts (case net.now states.now plan.demands) plan cuts }
    ensures proof { IfOk result (IsProofOf (case net.now states.now plan.demands) plan cuts limit) }
    ensures lines { IfOk result (λ r. r.lines ≡ []) }
    ensures cheapest { IfOk result (ShowsCheapest (case net.now states.now plan.demands)) }
    ensures above { IfOk result (ShowsBound (case net.now states.now plan.demands)) }
{
    let demands = plan.demands.copy()?;
    let instance = Instance {
        net,
        states,
        demands: &demands,
    };
    prove_instance(alloc, &instance, plan, cuts, limit, false, gate)
}

/// Does as `prove` for a plan of an instance. If `divides` is set, the leaves of the tree may also name lines that are made of the cuts and
/// come with the proof: sums of cuts that are divided and rounded up, which use that modules are whole. With lines a tree has few splits.
/// If links have two kinds of modules, the value without any split is mostly within a tenth of the least cost.
///
/// Before the tree grows, each cut gets a line whose right side is at most 64, and programs have these in place of the given cuts. Then
/// lines are made that the point of the program of all counts violates, up to 40 in each of up to 20 rounds, and up to 10 at each other box
/// that is looked at. If a program gets too wide with the lines of a round, they are taken off again, and the next round makes a third as
/// many. The certificate of the last program that isn't too wide stays known for the box of all counts.
///
/// If a link has more than two kinds of modules, up to 1,024 cuts of node sets come first, and rounds also make table lines of weights up
/// to 20, from cuts and lines of right sides up to 4,096.
///
/// The answer has at most 6,145 more cuts and lines than three times the given cuts, and two more for each split of the limit: boxes with a
/// single choice of counts may add cuts when there is no room left. A round takes a program, and time in the cuts and lines times the
/// modules times the square of the kinds of modules; each table line takes up to 4,096 times the kinds. It fails only where memory runs out.
pub fn prove_instance<G: Gate>(
    alloc: Global,
    instance: &Instance,
    plan: Plan,
    cuts: List<CutLine>,
    limit: u32,
    divides: bool,
    gate: &G,
) -> Result<Proof, NoMemory>
    requires limit { limit ≤ most_splits }
    requires survivable { IsSurvivable (case_of instance.now) }
    requires demands { plan.demands ≡ instance.now.demands.now }
    requires routed { IsRoutedPlan (case_of instance.now) plan }
    requires certified { IsCertifiedPlan (case_of instance.now) plan }
    requires cuts { AreHandedCuts (case_of instance.now) plan cuts }
    ensures proof { IfOk result (IsProofOf (case_of instance.now) plan cuts limit) }
    ensures lines { divides ≡ false → IfOk result (λ r. r.lines ≡ []) }
    ensures cheapest { IfOk result (ShowsCheapest (case_of instance.now)) }
    ensures above { IfOk result (ShowsBound (case_of instance.now)) }
{
    let better = swap(alloc, instance, plan)?;
    searched(alloc, instance, better, cuts, limit, divides, gate)
}
