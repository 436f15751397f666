ghost use Rattle.std.specs.Prelude.{◌≡◌, ◌↔◌, ℕ, false, true, IfOk, IsTrue, MatchOption};
ghost use Rattle.plan_terms.specs.Terms.{AreCounts, case_of};
ghost use Rattle.tree_check.{specs.Boxes.{IsFixedBox, least_counts}, specs.Proofs.{ClosesBox, EmptiesBox, IsEvidenceAt}, specs.Testing.{HasValueIn, names_in}, specs.inner.Walking.IsHeldIn};

use crate::boxes::{Boxed, is_split};
use crate::empty_box::is_emptied;
use crate::evidence::is_evidence_at;
use crate::fixed_counts::fixed_counts;
use crate::proof::{BoxCert, Node};
use crate::tests::Tests;
use crate::value::cert_value;
use line_check::line_in;
use line_check::tested_lines::is_sound;
use net_core::{Evidence, NoMemory};
use std::alloc::Global;

/// What a node that holds is.
#[derive(Clone, Copy)]
pub(crate) enum Held {
    /// A split, or a leaf that isn't open.
    Settled,
    /// An open leaf, by its value.
    Open(u128),
}

/// The value of a certificate for a box; none where it is no certificate of it. It takes time in the certificate's lines times the modules, and no
/// memory.
pub fn value_in(tests: &Tests, boxed: &Boxed, cert: &BoxCert) -> Option<u128>
    ensures { MatchOption result ((v : ℕ) → HasValueIn tests.now boxed.now cert.now v → ⊥) (HasValueIn tests.now boxed.now cert.now) }
{
    cert_value(
        tests.instance.net.links().items(),
        tests.tested,
        boxed.items(),
        cert,
    )
}

/// Whether a certificate closes a box. It takes the time of `value_in`.
pub fn is_closed(tests: &Tests, boxed: &Boxed, cert: &BoxCert) -> bool
    ensures { IsTrue result ↔ ClosesBox (names_in tests.now) tests.now.instance.now.net.now.links boxed.now tests.now.cost cert.now }
{
    match value_in(tests, boxed, cert) {
        None => false,
        Some(value) => tests.cost <= value,
    }
}

/// Whether a line empties a box. It takes time in the number of modules, and no memory.
pub fn is_empty(tests: &Tests, boxed: &Boxed, cut: u32) -> bool
    ensures { IsTrue result ↔ EmptiesBox (names_in tests.now) tests.now.instance.now.net.now.links boxed.now cut }
{
    is_sound(tests.tested, cut)
        && is_emptied(
            line_in(tests.tested, cut),
            tests.instance.net.links().items(),
            boxed.items(),
        )
}

/// Whether a box has one choice of counts, and evidence is one in form at these.
fn is_stuck(
    alloc: Global,
    tests: &Tests,
    boxed: &Boxed,
    evidence: &Evidence,
) -> Result<bool, NoMemory>
    requires { AreCounts tests.now.instance.now.net.now.links (least_counts boxed.now) }
    ensures { IfOk result (λ b. IsTrue b
        ↔ (IsFixedBox boxed.now × IsEvidenceAt (case_of tests.now.instance.now) (least_counts boxed.now) evidence.now)) }
{
    match fixed_counts(alloc, boxed.items())? {
        None => Ok(false),
        Some(counts) => is_evidence_at(alloc, tests.instance, &counts, evidence),
    }
}

/// An open leaf of the certificate's value; none where it is no certificate of the box.
fn held_open(tests: &Tests, boxed: &Boxed, cert: &BoxCert) -> Option<Held>
    ensures { MatchOption result ((v : ℕ) → HasValueIn tests.now boxed.now cert.now v → ⊥)
        (λ h. (v : ℕ) × (h ≡ Held.Open v) × HasValueIn tests.now boxed.now cert.now v) }
{
    match value_in(tests, boxed, cert) {
        None => None,
        Some(value) => Some(Held::Open(value)),
    }
}

fn settled_if(holds: bool) -> Option<Held>
    ensures { MatchOption result (holds ≡ false) (λ h. (holds ≡ true) × (h ≡ Held.Settled)) }
{
    if holds { Some(Held::Settled) } else { None }
}

/// What a node is for its box; none where it doesn't hold.
pub(crate) fn held_node(
    alloc: Global,
    tests: &Tests,
    boxed: &Boxed,
    node: &Node,
) -> Result<Option<Held>, NoMemory>
    requires { AreCounts tests.now.instance.now.net.now.links (least_counts boxed.now) }
    ensures { IfOk result (IsHeldIn tests.now boxed.now node.now) }
{
    match node {
        Node::Split { link, module, at } => Ok(settled_if(is_split(
            boxed.items(),
            link.0 as usize,
            *module as usize,
            *at,
        ))),
        Node::Closed(cert) => Ok(settled_if(is_closed(tests, boxed, cert))),
        Node::Empty { cut } => Ok(settled_if(is_empty(tests, boxed, *cut))),
        Node::Spent(cert) => Ok(held_open(tests, boxed, cert)),
        Node::Stuck(cert, evidence) => {
            if is_stuck(alloc, tests, boxed, evidence)? {
                Ok(held_open(tests, boxed, cert))
            } else {
                Ok(None)
            }
        }
    }
}
