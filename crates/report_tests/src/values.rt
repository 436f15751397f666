use net_core::{
    Caps, CutLine, Edit, Entry, Evidence, LinkId, MasterColumn, Notes, Reply, RouteColumn, Routing,
    StateId, States, WideKind,
};
use plan_report::{Outcome, Report};
use plan_types::{Cause, CertLine, Fractional, Plan, Quality, Spot};

/// What the report of a row says.
#[derive(Clone, Copy)]
pub(crate) enum Said {
    Other,
    Idle,
    Edits,
    Fine,
    NoRoom,
    LinkNumber,
    RouteRow,
    DemandEntry,
    FlowNumber,
    RouteSum,
    RouteCommon,
    Length,
    CutEntry,
    Value,
}

/// Whether a cut of the state without failures has these lengths and this right side.
fn is_cut(cut: &CutLine, lengths: &[u32], right: u128) -> bool {
    cut.state == StateId(0) && cut.lengths.items() == lengths && cut.right == right
}

/// Whether there is one routing, of nothing.
fn route_nothing(routings: &[Routing]) -> bool {
    match routings {
        [routing] => routing.den == 1 && routing.flows.items().is_empty(),
        _ => false,
    }
}

/// Whether there are three links with one module each, of which there is none.
fn count_nothing(plan: &Plan) -> bool {
    match plan.counts.items() {
        [first, second, third] => {
            matches!(
                (first.items(), second.items(), third.items()),
                ([0], [0], [0])
            )
        }
        _ => false,
    }
}

/// Whether a share has no units.
fn is_idle_share(fractional: &Fractional) -> bool {
    fractional.share.scale == 1
        && matches!(fractional.share.units.items(), [0, 0, 0])
        && route_nothing(fractional.routings.items())
}

/// Whether a bound of 0 is that of no cut, and tight.
fn is_idle_bound(plan: &Plan) -> bool {
    let tight = match &plan.quality {
        Quality::Tight(fractional) => is_idle_share(fractional),
        Quality::Loose(_) => false,
    };
    tight
        && plan.certificate.den == 1
        && plan.certificate.lines.items().is_empty()
        && (plan.raw_num, plan.raw_den, plan.bound) == (0, 1, 0)
}

/// Whether a plan has no demands and no modules.
fn is_idle_plan(plan: &Plan) -> bool {
    (plan.version, plan.position, plan.cost) == (0, 0, 0)
        && plan.demands.items().is_empty()
        && count_nothing(plan)
        && route_nothing(plan.routings.items())
        && is_idle_bound(plan)
}

/// Whether an outcome is that plan, of the first command of the first caller.
fn is_idle_outcome(outcome: &Outcome) -> bool {
    match outcome {
        Outcome::Planned {
            caller: 1,
            serial: 1,
            plan,
        } => is_idle_plan(plan),
        _ => false,
    }
}

/// Whether an entry is the cut of this place, with these lengths in the state without failures.
fn is_pooled(entry: &Entry, place: u32, long: &[u32]) -> bool {
    match entry {
        Entry::Pooled {
            index,
            state: StateId(0),
            lengths,
        } => *index == place && lengths.items() == long,
        _ => false,
    }
}

/// Whether a report notes this of fixed costs, of routing costs and of setup costs.
fn has_notes(notes: Notes, fixed: bool, routing: bool, setup: bool) -> bool {
    (notes.fixed_cost, notes.routing_cost, notes.setup_cost) == (fixed, routing, setup)
}

/// Whether a report has one cut, which asks for nothing, and a plan without demands.
fn is_idle(report: &Report) -> bool {
    let journal = match report.entries.items() {
        [entry] => is_pooled(entry, 0, &[1, 1, 1]),
        _ => false,
    };
    let pool = match report.pool.items() {
        [line] => is_cut(line, &[1, 1, 1], 0),
        _ => false,
    };
    let outcomes = match report.outcomes.items() {
        [outcome] => is_idle_outcome(outcome),
        _ => false,
    };
    journal && pool && outcomes && has_notes(report.notes, false, false, false)
}

/// An edit: its caller, its demand, the need that it asks for, whether it adds the demand from A to C, and its reply.
type Edited = (u32, &'static [u8], Option<u64>, bool, Reply);

/// The edits of the journal.
const EDITED: [Edited; 7] = [
    (1, b"D1", Some(12500), false, Reply::Accepted(7)),
    (8, b"D1", None, false, Reply::UnknownDemand),
    (2, b"D2", Some(5000), true, Reply::KnownDemand),
    (2, b"D2", Some(5000), true, Reply::UnknownNode),
    (2, b"D2", Some(5000), true, Reply::SelfDemand),
    (2, b"D2", Some(5000), true, Reply::TooMany),
    (3, b"D1", Some(1), false, Reply::TooMuch(17592186044416)),
];

/// The demand of an edit, the need that it asks for, and whether it adds the demand from A to C.
fn asked_of(edit: &Edit) -> (&[u8], Option<u64>, bool) {
    match edit {
        Edit::Set { name, need } => (name.bytes(), Some(*need), false),
        Edit::Drop { name } => (name.bytes(), None, false),
        Edit::Add {
            name,
            from,
            to,
            need,
        } => (
            name.bytes(),
            Some(*need),
            (from.bytes(), to.bytes()) == (b"A".as_slice(), b"C".as_slice()),
        ),
    }
}

/// Whether an entry is this edit.
fn is_edited(entry: &Entry, row: &Edited) -> bool {
    let (by, demand, need, added, answered) = *row;
    match entry {
        Entry::Edited {
            caller,
            edit,
            reply,
        } => *caller == by && asked_of(edit) == (demand, need, added) && *reply == answered,
        Entry::Pooled { .. } => false,
    }
}

/// Whether a journal has these edits, and a cut at its end whose line of the pool isn't there.
fn has_edits(entries: &[Entry]) -> bool {
    let Some((last, edits)) = entries.split_last() else {
        return false;
    };
    for (entry, row) in edits.iter().zip(&EDITED) {
        if !is_edited(entry, row) {
            return false;
        }
    }
    edits.len() == EDITED.len() && is_pooled(last, 3, &[])
}

/// The edits of the journal with six places.
const FINELY_EDITED: [Edited; 2] = [
    (1, b"D", Some(1), false, Reply::TooMuch(17592186044416)),
    (2, b"D", Some(12345678), true, Reply::Accepted(1)),
];

/// Whether a report has needs and costs in millionths.
fn is_fine(report: &Report) -> bool {
    let edited = match report.entries.items() {
        [first, second] => {
            is_edited(first, &FINELY_EDITED[0]) && is_edited(second, &FINELY_EDITED[1])
        }
        _ => false,
    };
    let planned = match plan_of(report) {
        Some(plan) => {
            let needs = match plan.demands.items() {
                [demand] => demand.need == 12345678,
                _ => false,
            };
            needs && (plan.cost, plan.bound) == (5000000, 4000001)
        }
        None => false,
    };
    edited && planned
}

/// Whether an outcome is that the state without failures separates D1.
fn separates(outcome: &Outcome) -> bool {
    match outcome {
        Outcome::Unsurvivable {
            caller: 2,
            serial: 64,
            version: 1,
            position: 5,
            state: StateId(0),
            demand,
        } => demand.bytes() == b"D1".as_slice(),
        _ => false,
    }
}

/// Whether a report has these edits and such an outcome.
fn is_edited_report(report: &Report) -> bool {
    let separated = match report.outcomes.items() {
        [outcome] => separates(outcome),
        _ => false,
    };
    separated
        && has_edits(report.entries.items())
        && report.pool.items().is_empty()
        && has_notes(report.notes, true, false, true)
}

/// The plan of a report, which is its only outcome.
fn plan_of(report: &Report) -> Option<&Plan> {
    match report.outcomes.items() {
        [Outcome::Planned { plan, .. }] => Some(plan),
        _ => None,
    }
}

/// Whether a line of a certificate is four times the cut of this place and these lengths, which asks for nothing.
fn is_line(line: &CertLine, spot: Spot, lengths: &[u32]) -> bool {
    line.num == 4 && line.spot == spot && is_cut(&line.cut, lengths, 0)
}

/// Whether a plan routes 0.005 over the link AC, and its certificate has a cut of the pool and another.
fn has_both_lines(plan: &Plan) -> bool {
    let flows = match plan.routings.items() {
        [routing] => match routing.flows.items() {
            [flow] => {
                flow.demand == 0 && flow.num == 5 && flow.path.items() == [LinkId(2)].as_slice()
            }
            _ => false,
        },
        _ => false,
    };
    match plan.certificate.lines.items() {
        [pooled, local] => {
            flows
                && is_line(pooled, Spot::Pool(1), &[1, 2, 3])
                && is_line(local, Spot::Local, &[1, 1, 1])
        }
        _ => false,
    }
}

/// Whether this of a program that routes is too wide.
fn is_route_kind(kind: &WideKind<RouteColumn>, said: Said) -> bool {
    match (kind, said) {
        (WideKind::Number(RouteColumn::LinkSlack(link)), Said::LinkNumber) => *link == LinkId(0),
        (WideKind::Row(row), Said::RouteRow) => *row == 4,
        (WideKind::Product(row, RouteColumn::DemandSlack(demand)), Said::DemandEntry) => {
            *row == 2 && *demand == 0
        }
        (WideKind::Number(RouteColumn::Carry(demand, path)), Said::FlowNumber) => {
            *demand == 0 && path.items() == [LinkId(0), LinkId(1)].as_slice()
        }
        (WideKind::Sum(row), Said::RouteSum) => *row == 1,
        (WideKind::Common, Said::RouteCommon) => true,
        (WideKind::Length(link), Said::Length) => *link == LinkId(2),
        _ => false,
    }
}

/// Whether this of a program that finds a certificate is too wide.
fn is_master_kind(kind: &WideKind<MasterColumn>, said: Said) -> bool {
    match (kind, said) {
        (WideKind::Product(row, MasterColumn::Metric(state, lengths)), Said::CutEntry) => {
            *row == 3 && *state == StateId(0) && lengths.items() == [1, 0, 2].as_slice()
        }
        (WideKind::Value, Said::Value) => true,
        _ => false,
    }
}

/// Whether the basis of a program that routes has both kinds of slacks, and a flow.
fn is_route_basis(basis: &[RouteColumn]) -> bool {
    match basis {
        [
            RouteColumn::LinkSlack(LinkId(0)),
            RouteColumn::LinkSlack(LinkId(1)),
            RouteColumn::DemandSlack(0),
            RouteColumn::Carry(0, path),
        ] => path.items() == [LinkId(2)].as_slice(),
        _ => false,
    }
}

/// Whether the basis of a program that finds a certificate has slacks, and a cut.
fn is_master_basis(basis: &[MasterColumn]) -> bool {
    match basis {
        [
            MasterColumn::LinkSlack(LinkId(0)),
            MasterColumn::LinkSlack(LinkId(1)),
            MasterColumn::Metric(StateId(0), lengths),
        ] => matches!(lengths.items(), [1, 1, 1]),
        _ => false,
    }
}

/// Whether capacities are a third of these numbers.
fn are_caps(caps: &Caps) -> bool {
    caps.scale == 3
        && caps.nums.items() == [1, 2, 85070591730234615865843651857942052863].as_slice()
}

/// Whether evidence says this.
fn is_evidence(evidence: &Evidence, said: Said) -> bool {
    match evidence {
        Evidence::Route {
            state,
            caps,
            basis,
            kind,
        } => {
            *state == StateId(0)
                && are_caps(caps)
                && is_route_basis(basis.items())
                && is_route_kind(kind, said)
        }
        Evidence::Master { basis, kind } => {
            is_master_basis(basis.items()) && is_master_kind(kind, said)
        }
    }
}

/// Whether a plan has no better bound for this.
fn is_loose(plan: &Plan, said: Said) -> bool {
    match &plan.quality {
        Quality::Loose(Cause::Wide(evidence)) => is_evidence(evidence, said),
        Quality::Loose(Cause::Cuts) => matches!(said, Said::NoRoom),
        Quality::Tight(_) => false,
    }
}

/// Whether a report has such a plan, with both cuts.
fn is_loose_report(report: &Report, said: Said) -> bool {
    match plan_of(report) {
        Some(plan) => has_both_lines(plan) && is_loose(plan, said),
        None => false,
    }
}

/// Whether a report says this.
pub(crate) fn says(report: &Report, said: Said) -> bool {
    match said {
        Said::Other => true,
        Said::Idle => is_idle(report),
        Said::Edits => is_edited_report(report),
        Said::Fine => is_fine(report),
        _ => is_loose_report(report, said),
    }
}
