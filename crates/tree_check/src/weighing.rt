ghost use Rattle.std.specs.Prelude.{◌<◌, ◌≤◌, ◌^◌, All, length};
ghost use Rattle.plan_terms.specs.Terms.{IsModule};

use crate::boxes::Span;
use line_check::{Multiplier, Tested};
use net_core::{Link, List};

/// What a certificate's value is computed of: a box, and lines with numerators over a denominator.
#[derive(Clone, Copy)]
pub(crate) struct Weighing<'a> {
    pub links: &'a [Link],
    pub boxed: &'a [List<Span>],
    pub tested: &'a [Tested],
    pub den: u128,
    pub lines: &'a [Multiplier],
    pub ghost few: { length links.now ≤ 256 },
    pub ghost sound: { All (λ l. (length l.modules ≤ 16) × (l.setup < 2 ^ 40) × All IsModule l.modules) links.now },
    pub ghost narrow: { den < 2 ^ 72 },
    pub ghost known: { All (λ m. m.cut < length tested.now) lines.now },
}
