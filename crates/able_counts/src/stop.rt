ghost use Rattle.std.specs.Prelude.{◌≡◌, ◌⊎◌, IsTrue, None};

use net_core::{CutLine, Evidence, discard};

/// Why counts of modules aren't known to carry the demands in all states.
#[derive(Drop)]
pub enum Stop {
    /// The capacities of the counts violate this cut, whose right side is that of the demands.
    Cut(CutLine),
    /// A number of a state's routing program is too wide at the capacities of the counts.
    Wide(Evidence),
}

/// Whether it is a stop by a cut.
pub(crate) fn is_cut(found: &Option<Stop>) -> bool
    ensures { IsTrue result → found.now ≡ None → ⊥ }
{
    matches!(found, Some(Stop::Cut(_)))
}

/// The second one if there is one, else the first.
pub(crate) fn later(first: Option<Stop>, second: Option<Stop>) -> Option<Stop>
    ensures one { (result ≡ first) ⊎ (result ≡ second) }
    ensures none { result ≡ None → (first ≡ None) × (second ≡ None) }
{
    match second {
        Some(stop) => {
            discard(first);
            Some(stop)
        }
        None => first,
    }
}
