ghost use Rattle.std.specs.Prelude.{◌≡◌, ◌^◌};
ghost use Rattle.snd_tokens.specs.Terms.{left};
ghost use Rattle.text_kit.specs.Terms.{ReadsAs, of_length};
ghost use Rattle.report_words.specs.ReportChoices.{numbers_at};

use crate::element::{Element, list};
use crate::fault::{ReportKind, ReportRefusal};
use crate::words::{next_number, opening};
use net_core::{Lengths, List};
use snd_tokens::Cursor;
use std::alloc::Global;

const LENGTH_LIMIT: u128 = 1 << 32;

const UNIT_LIMIT: u128 = 1 << 62;

const CAPACITY_LIMIT: u128 = 1 << 126;

/// The fault of a list that has another number of elements: `limit`. It takes constant time.
pub fn of_length<X>(count: usize, all: &[X]) -> Option<ReportKind>
    ensures { result ≡ of_length count ReportKind.Limit all.now }
{
    if all.len() == count {
        return None;
    }
    Some(ReportKind::Limit)
}

/// One length below 2^32 for each link, as elements of a list. One that is out of that range, or one too many or too few, is `limit`.
#[derive(Clone, Copy)]
pub struct LengthList {
    /// The number of links.
    pub count: usize,
}

impl Element for LengthList {
    ghost use Rattle.std.specs.Prelude.{◌^◌};
    ghost use Rattle.text_kit.specs.Terms.{of_length};
    ghost use Rattle.report_words.specs.ReportChoices.{next_number_at};
    ghost use Rattle.report_words.specs.declared.fault.ReportKind.TheVariants.{Limit};

    type Item = u32;

    ghost reading = { λ l. next_number_at l.count (2 ^ 32) };

    ghost fault = { λ l. of_length l.count Limit };

    fn take(&self, alloc: Global, sofar: &[u32], text: &mut Cursor) -> Result<u32, ReportRefusal> {
        Ok(next_number(sofar.len() < self.count, LENGTH_LIMIT, text)? as u32)
    }

    fn fault(&self, all: &[u32]) -> Option<ReportKind> {
        of_length(self.count, all)
    }
}

/// Takes lengths, one below 2^32 for each link, between parentheses. A length that is out
/// of that range, or one too many or too few, is `limit`. It takes memory for 4 bytes a link.
#[tactic(auto, unfolding(crate::specs::ReportChoices::numbers_at))]
pub fn lengths(alloc: Global, count: usize, text: &mut Cursor) -> Result<Lengths, ReportRefusal>
    ensures { ReadsAs (λ l. l) result (left text.new) (numbers_at count (2 ^ 32) (left text.old)) }
{
    opening(text)?;
    list(alloc, &LengthList { count }, text)
}

/// One number of units below 2^62 for each link.
#[derive(Clone, Copy)]
struct UnitList {
    count: usize,
}

impl Element for UnitList {
    ghost use Rattle.std.specs.Prelude.{◌^◌};
    ghost use Rattle.text_kit.specs.Terms.{of_length};
    ghost use Rattle.report_words.specs.ReportChoices.{next_number_at};
    ghost use Rattle.report_words.specs.declared.fault.ReportKind.TheVariants.{Limit};

    type Item = u64;

    ghost reading = { λ l. next_number_at l.count (2 ^ 62) };

    ghost fault = { λ l. of_length l.count Limit };

    fn take(&self, alloc: Global, sofar: &[u64], text: &mut Cursor) -> Result<u64, ReportRefusal> {
        Ok(next_number(sofar.len() < self.count, UNIT_LIMIT, text)? as u64)
    }

    fn fault(&self, all: &[u64]) -> Option<ReportKind> {
        of_length(self.count, all)
    }
}

/// Takes units of a share's scale, a number below 2^62 for each link, between parentheses.
/// A number that is out of that range, or one too many or too few, is `limit`. It takes memory for 8
/// bytes a link.
#[tactic(auto, unfolding(crate::specs::ReportChoices::numbers_at))]
pub fn units(alloc: Global, count: usize, text: &mut Cursor) -> Result<List<u64>, ReportRefusal>
    ensures { ReadsAs (λ l. l) result (left text.new) (numbers_at count (2 ^ 62) (left text.old)) }
{
    opening(text)?;
    list(alloc, &UnitList { count }, text)
}

/// One capacity below 2^126 for each link.
#[derive(Clone, Copy)]
struct CapacityList {
    count: usize,
}

impl Element for CapacityList {
    ghost use Rattle.std.specs.Prelude.{◌^◌};
    ghost use Rattle.text_kit.specs.Terms.{of_length};
    ghost use Rattle.report_words.specs.ReportChoices.{next_number_at};
    ghost use Rattle.report_words.specs.declared.fault.ReportKind.TheVariants.{Limit};

    type Item = u128;

    ghost reading = { λ l. next_number_at l.count (2 ^ 126) };

    ghost fault = { λ l. of_length l.count Limit };

    fn take(
        &self,
        alloc: Global,
        sofar: &[u128],
        text: &mut Cursor,
    ) -> Result<u128, ReportRefusal> {
        next_number(sofar.len() < self.count, CAPACITY_LIMIT, text)
    }

    fn fault(&self, all: &[u128]) -> Option<ReportKind> {
        of_length(self.count, all)
    }
}

/// Takes capacities in parts of their scale, a number below 2^126 for each link, between
/// parentheses. A number that is out of that range, or one too many or too few, is `limit`. It takes
/// memory for 16 bytes a link.
#[tactic(auto, unfolding(crate::specs::ReportChoices::numbers_at))]
pub fn capacities(
    alloc: Global,
    count: usize,
    text: &mut Cursor,
) -> Result<List<u128>, ReportRefusal>
    ensures { ReadsAs (λ l. l) result (left text.new) (numbers_at count (2 ^ 126) (left text.old)) }
{
    opening(text)?;
    list(alloc, &CapacityList { count }, text)
}
