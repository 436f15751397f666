ghost use Rattle.std.specs.Prelude.{◌≡◌, ◌<◌, ◌^◌, length, IfOk};
ghost use Rattle.snd_tokens.specs.Terms.{left};
ghost use Rattle.text_kit.specs.Terms.{ReadsAs};
ghost use Rattle.report_words.specs.Terms.{known_in};
ghost use Rattle.report_parts.specs.ReadingParts.{certificate_at, local_spot_at, of_line, pool_spot_at, right_side_at, spot_at};

use crate::spot_cut::SpotCut;
use net_core::{Copied, CutLine, NoMemory, StateId, discard};
use plan_types::{CertLine, Certificate, Spot};
use report_words::context::Context;
use report_words::element::{Element, list};
use report_words::fault::{ReportKind, ReportRefusal};
use report_words::field::field;
use report_words::numbers::lengths;
use report_words::words::{closing, keyword, medium, number, opening, opening_within, small};
use snd_tokens::Cursor;
use std::alloc::Global;
use text_kit::refusal::bad;
use text_kit::steps::word;

const CERTIFICATE: &[u8] = b"CERTIFICATE";

const POOL: &[u8] = b"pool";

const LOCAL: &[u8] = b"local";

const RIGHT: &[u8] = b"right";

const MAX_LINES: usize = 256;

const NUM_LIMIT: u128 = 1 << 62;

const DEN_LIMIT: u128 = 1 << 72;

const RIGHT_LIMIT: u128 = 1 << 84;

/// The cut of a line of the pool.
fn of_line(pool: &[CutLine], index: u32) -> Result<SpotCut, NoMemory>
    requires { index < length pool.now }
    ensures { IfOk result (λ p. p ≡ of_line pool.now index) }
{
    let line = &pool[index as usize];
    Ok(SpotCut {
        spot: Spot::Pool(index),
        state: line.state,
        lengths: line.lengths.copy()?,
    })
}

/// Takes the right side of a line, and the closing parenthesis.
#[tactic(auto, unfolding(crate::specs::ReadingParts::right_side_at))]
fn right_side(text: &mut Cursor) -> Result<u128, ReportRefusal>
    ensures { ReadsAs (λ n. n) result (left text.new) (right_side_at (left text.old)) }
{
    let right = field(RIGHT, 0, RIGHT_LIMIT, text)?;
    closing(text)?;
    Ok(right)
}

/// The lines of a certificate, whose cuts may be lines of this pool.
#[derive(Clone, Copy)]
struct CertLineList<'a> {
    context: &'a Context<'a>,
    pool: &'a [CutLine],
    ghost few: { length pool.now < 2 ^ 32 },
}

impl<'a> CertLineList<'a> {
    /// Takes the place of a cut in the pool.
    #[tactic(auto, unfolding(crate::specs::ReadingParts::pool_spot_at))]
    fn pool_spot(&self, text: &mut Cursor) -> Result<SpotCut, ReportRefusal>
        ensures { ReadsAs (λ p. p) result (left text.new) (pool_spot_at self.now.pool.now (left text.old)) }
    {
        let index = small(0, self.pool.len() as u128, text)?;
        Ok(of_line(self.pool, index)?)
    }

    /// Takes a cut that isn't in the pool.
    #[tactic(auto, unfolding(crate::specs::ReadingParts::local_spot_at))]
    fn local_spot(&self, alloc: Global, text: &mut Cursor) -> Result<SpotCut, ReportRefusal>
        ensures { ReadsAs (λ p. p) result (left text.new) (local_spot_at (known_in self.now.context.now) (left text.old)) }
    {
        let state = small(0, u128::from(self.context.states.count()), text)?;
        let lengths = lengths(alloc, self.context.net.links().len(), text)?;
        Ok(SpotCut {
            spot: Spot::Local,
            state: StateId(state),
            lengths,
        })
    }

    /// Takes a cut of a certificate.
    fn spot(&self, alloc: Global, text: &mut Cursor) -> Result<SpotCut, ReportRefusal>
        ensures { ReadsAs (λ p. p) result (left text.new) (spot_at (known_in self.now.context.now) self.now.pool.now (left text.old)) }
    {
        let (at, word) = word(ReportKind::Token, ReportKind::Ended, text)?;
        if word == POOL {
            return self.pool_spot(text);
        }
        if word == LOCAL {
            return self.local_spot(alloc, text);
        }
        Err(bad(at, ReportKind::Token))
    }
}

impl<'a> Element for CertLineList<'a> {
    ghost use Rattle.text_kit.specs.Terms.{no_fault};
    ghost use Rattle.report_words.specs.Terms.{known_in};
    ghost use Rattle.report_parts.specs.ReadingParts.{certificate_line_at};

    type Item = CertLine;

    ghost reading = { λ l. certificate_line_at (known_in l.context.now) l.pool.now };

    ghost fault = { λ _. no_fault };

    #[tactic(auto, unfolding(crate::specs::ReadingParts::certificate_line_at))]
    fn take(
        &self,
        alloc: Global,
        sofar: &[CertLine],
        text: &mut Cursor,
    ) -> Result<CertLine, ReportRefusal> {
        opening_within(sofar.len() < MAX_LINES, text)?;
        let num = medium(0, NUM_LIMIT, text)?;
        let cut = self.spot(alloc, text)?;
        match right_side(text) {
            Ok(right) => Ok(CertLine {
                num,
                spot: cut.spot,
                cut: CutLine {
                    state: cut.state,
                    lengths: cut.lengths,
                    right,
                },
            }),
            Err(refusal) => {
                discard(cut);
                Err(refusal)
            }
        }
    }

    fn fault(&self, _all: &[CertLine]) -> Option<ReportKind> {
        None
    }
}

/// Takes the certificate of a plan: the common denominator of its multipliers, from 1 to below 2^72, and up to 256 lines, each with
/// a numerator below 2^62, a cut and a right side below 2^84 in units.
///
/// A number that is out of its range, a place that the pool doesn't have, or a line too many is `limit`. It takes memory for the
/// lengths of each line's cut, which are copied from the pool where the line names a place there.
#[tactic(auto, unfolding(crate::specs::ReadingParts::certificate_at))]
pub fn certificate(
    alloc: Global,
    context: &Context,
    pool: &[CutLine],
    text: &mut Cursor,
) -> Result<Certificate, ReportRefusal>
    requires { length pool.now < 2 ^ 32 }
    ensures { ReadsAs (λ c. c) result (left text.new) (certificate_at (known_in context.now) pool.now (left text.old)) }
{
    keyword(CERTIFICATE, text)?;
    opening(text)?;
    let den = number(1, DEN_LIMIT, text)?;
    let lines = list(alloc, &CertLineList { context, pool }, text)?;
    Ok(Certificate { den, lines })
}
