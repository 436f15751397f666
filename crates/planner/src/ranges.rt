ghost use Rattle.std.specs.Prelude.{◌≤◌, All, length};
ghost use Rattle.plan_terms.specs.Terms.{HasShortLengths};
ghost use Rattle.net_core.specs.Limits.{name_bytes};

use net_core::{CutLine, Demand};
use plan_rounds::are_short;

/// The lengths of cuts are below 2^32 by their type, which a proof learns by this call. It takes time in the number of cuts.
pub fn are_short_cuts(cuts: &[CutLine])
    ensures { All HasShortLengths cuts.now }
{
    for cut in cuts {
        are_short(cut.lengths.items());
    }
}

/// Names of demands have at most 255 bytes by their type, which a proof learns by this call. It takes time in the number of demands.
pub(crate) fn are_named(demands: &[Demand])
    ensures { All (λ d. length d.name ≤ name_bytes) demands.now }
{
    for d in demands {
        let _name = d.name.bytes();
    }
}
