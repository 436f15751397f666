ghost use Rattle.std.specs.Prelude.{◌≡◌};
ghost use Rattle.snd_tokens.specs.Terms.{left};
ghost use Rattle.text_kit.specs.Terms.{ReadsAs};
ghost use Rattle.report_parts.{specs.ReadingQuality.{fractional_at, loose_at, quality_at, tight_at, too_wide_at}, specs.Readers.{reader_demands, reader_names}};

use crate::plan_reader::PlanReader;
use plan_types::{Cause, Fractional, Quality, Share};
use report_words::fault::{ReportKind, ReportRefusal};
use report_words::numbers::units;
use report_words::words::medium;
use snd_tokens::Cursor;
use text_kit::refusal::bad;
use text_kit::steps::word;

const TIGHT: &[u8] = b"tight";

const LOOSE: &[u8] = b"loose";

const CUTS: &[u8] = b"cuts";

const WIDE: &[u8] = b"wide";

const SCALE_LIMIT: u128 = 1 << 62;

impl<'a> PlanReader<'a> {
    /// Takes a share and the routings within it.
    #[tactic(auto, unfolding(crate::specs::ReadingQuality::fractional_at))]
    fn fractional(&self, text: &mut Cursor) -> Result<Fractional, ReportRefusal>
        ensures { ReadsAs (λ f. f) result (left text.new) (fractional_at (reader_names self.now) (reader_demands self.now) (left text.old)) }
    {
        let scale = medium(1, SCALE_LIMIT, text)?;
        let units = units(self.alloc, self.context.net.links().len(), text)?;
        let routings = self.routings(text)?;
        Ok(Fractional {
            share: Share { scale, units },
            routings,
        })
    }

    /// Takes what a tight plan has.
    #[tactic(auto, unfolding(crate::specs::ReadingQuality::tight_at))]
    fn tight(&self, text: &mut Cursor) -> Result<Quality, ReportRefusal>
        ensures { ReadsAs (λ q. q) result (left text.new) (tight_at (reader_names self.now) (reader_demands self.now) (left text.old)) }
    {
        let fractional = self.fractional(text)?;
        Ok(Quality::Tight(fractional))
    }

    /// Takes evidence that a number was too wide.
    #[tactic(auto, unfolding(crate::specs::ReadingQuality::too_wide_at))]
    fn too_wide(&self, text: &mut Cursor) -> Result<Quality, ReportRefusal>
        ensures { ReadsAs (λ q. q) result (left text.new) (too_wide_at (reader_names self.now) (reader_demands self.now) (left text.old)) }
    {
        let evidence = self.evidence(text)?;
        Ok(Quality::Loose(Cause::Wide(evidence)))
    }

    /// Takes why there is no better bound.
    fn loose(&self, text: &mut Cursor) -> Result<Quality, ReportRefusal>
        ensures { ReadsAs (λ q. q) result (left text.new) (loose_at (reader_names self.now) (reader_demands self.now) (left text.old)) }
    {
        let (at, word) = word(ReportKind::Token, ReportKind::Ended, text)?;
        if word == CUTS {
            return Ok(Quality::Loose(Cause::Cuts));
        }
        if word == WIDE {
            return self.too_wide(text);
        }
        Err(bad(at, ReportKind::Token))
    }

    /// Takes how good the bound of a plan is: a share with its routings where it is tight, or why there
    /// is no better bound.
    ///
    /// The share has a scale from 1 to below 2^62, and a number of units below 2^62 for each link. It
    /// takes the memory of the routings, or of the evidence.
    pub fn quality(&self, text: &mut Cursor) -> Result<Quality, ReportRefusal>
        ensures { ReadsAs (λ q. q) result (left text.new) (quality_at (reader_names self.now) (reader_demands self.now) (left text.old)) }
    {
        let (at, word) = word(ReportKind::Token, ReportKind::Ended, text)?;
        if word == TIGHT {
            return self.tight(text);
        }
        if word == LOOSE {
            return self.loose(text);
        }
        Err(bad(at, ReportKind::Token))
    }
}
