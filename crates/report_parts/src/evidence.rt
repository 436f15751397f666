ghost use Rattle.std.specs.Prelude.{◌≡◌, ◌+◌, ◌<◌, ◌^◌, length};
ghost use Rattle.snd_tokens.specs.Terms.{left};
ghost use Rattle.text_kit.specs.Terms.{ReadsAs};
ghost use Rattle.report_words.specs.Terms.{branch_at, number_at};
ghost use Rattle.report_parts.{specs.ReadingQuality.{caps_at, evidence_at, master_at, master_column_branches, master_wide_branches, route_at, route_column_branches, route_wide_branches, wide_entry_at, wide_length_at, wide_number_at, wide_row_at, wide_sum_at}, specs.Readers.{reader_demands, reader_links, reader_names}};

use crate::plan_reader::PlanReader;
use net_core::{Caps, Evidence, MasterColumn, RouteColumn, StateId, WideKind};
use report_words::fault::{ReportKind, ReportRefusal};
use report_words::numbers::capacities;
use report_words::words::{medium, small};
use snd_tokens::Cursor;
use text_kit::Refusal;
use text_kit::refusal::bad;
use text_kit::steps::word;

const ROUTE: &[u8] = b"route";

const MASTER: &[u8] = b"master";

const NUMBER: &[u8] = b"number";

const ROW: &[u8] = b"row";

const ENTRY: &[u8] = b"entry";

const SUM: &[u8] = b"sum";

const COMMON: &[u8] = b"common";

const VALUE: &[u8] = b"value";

const LENGTH: &[u8] = b"length";

/// Rows are told apart by numbers below 2^32.
const MAX_ROWS: usize = u32::MAX as usize;

const SCALE_LIMIT: u128 = 1 << 62;

/// Takes a row of a basis with this number of rows, or the row of its objective.
fn row(rows: usize, text: &mut Cursor) -> Result<u32, ReportRefusal>
    requires { rows + 1 < 2 ^ 32 }
    ensures { ReadsAs (λ i. i) result (left text.new) (number_at 0 (rows + 1) (left text.old)) }
{
    small(0, rows as u128 + 1, text)
}

/// Takes a row.
#[tactic(auto, unfolding(crate::specs::ReadingQuality::wide_row_at))]
fn wide_row<C: Drop>(rows: usize, text: &mut Cursor) -> Result<WideKind<C>, ReportRefusal>
    requires { rows + 1 < 2 ^ 32 }
    ensures { ReadsAs (λ k. k) result (left text.new) (wide_row_at rows (left text.old)) }
{
    let row = row(rows, text)?;
    Ok(WideKind::Row(row))
}

/// Takes a row whose products are summed.
#[tactic(auto, unfolding(crate::specs::ReadingQuality::wide_sum_at))]
fn wide_sum<C: Drop>(rows: usize, text: &mut Cursor) -> Result<WideKind<C>, ReportRefusal>
    requires { rows + 1 < 2 ^ 32 }
    ensures { ReadsAs (λ k. k) result (left text.new) (wide_sum_at rows (left text.old)) }
{
    let row = row(rows, text)?;
    Ok(WideKind::Sum(row))
}

impl<'a> PlanReader<'a> {
    /// Takes a column of the routing program.
    #[tactic(auto, unfolding(crate::specs::ReadingQuality::wide_number_at))]
    fn route_number(&self, text: &mut Cursor) -> Result<WideKind<RouteColumn>, ReportRefusal>
        ensures { ReadsAs (λ k. k) result (left text.new)
            (wide_number_at (route_column_branches (reader_links self.now) (reader_demands self.now)) (left text.old)) }
    {
        let column = self.route_column(true, text)?;
        Ok(WideKind::Number(column))
    }

    /// Takes a row and a column of the routing program.
    #[tactic(auto, unfolding(crate::specs::ReadingQuality::wide_entry_at))]
    fn route_entry(
        &self,
        rows: usize,
        text: &mut Cursor,
    ) -> Result<WideKind<RouteColumn>, ReportRefusal>
        requires { rows + 1 < 2 ^ 32 }
        ensures { ReadsAs (λ k. k) result (left text.new)
            (wide_entry_at (route_column_branches (reader_links self.now) (reader_demands self.now)) rows (left text.old)) }
    {
        let row = row(rows, text)?;
        let column = self.route_column(true, text)?;
        Ok(WideKind::Product(row, column))
    }

    /// Takes the link whose length is too wide.
    #[tactic(auto, unfolding(crate::specs::ReadingQuality::wide_length_at))]
    fn route_length(&self, text: &mut Cursor) -> Result<WideKind<RouteColumn>, ReportRefusal>
        ensures { ReadsAs (λ k. k) result (left text.new) (wide_length_at (reader_links self.now) (left text.old)) }
    {
        let link = self.context.link(text)?;
        Ok(WideKind::Length(link))
    }

    /// Takes what is too wide of a basis of the routing program.
    fn route_wide(
        &self,
        rows: usize,
        text: &mut Cursor,
    ) -> Result<WideKind<RouteColumn>, ReportRefusal>
        requires { rows + 1 < 2 ^ 32 }
        ensures { ReadsAs (λ k. k) result (left text.new)
            (branch_at (route_wide_branches (route_column_branches (reader_links self.now) (reader_demands self.now)) (reader_links self.now) rows)
            (left text.old)) }
    {
        let (at, word) = word(ReportKind::Token, ReportKind::Ended, text)?;
        if word == NUMBER {
            return self.route_number(text);
        }
        if word == ROW {
            return wide_row(rows, text);
        }
        if word == ENTRY {
            return self.route_entry(rows, text);
        }
        if word == SUM {
            return wide_sum(rows, text);
        }
        if word == COMMON {
            return Ok(WideKind::Common);
        }
        if word == LENGTH {
            return self.route_length(text);
        }
        Err(bad(at, ReportKind::Token))
    }

    /// Takes a column of the program of a certificate.
    #[tactic(auto, unfolding(crate::specs::ReadingQuality::wide_number_at))]
    fn master_number(&self, text: &mut Cursor) -> Result<WideKind<MasterColumn>, ReportRefusal>
        ensures { ReadsAs (λ k. k) result (left text.new) (wide_number_at (master_column_branches (reader_names self.now)) (left text.old)) }
    {
        let column = self.master_column(true, text)?;
        Ok(WideKind::Number(column))
    }

    /// Takes a row and a column of the program of a certificate.
    #[tactic(auto, unfolding(crate::specs::ReadingQuality::wide_entry_at))]
    fn master_entry(
        &self,
        rows: usize,
        text: &mut Cursor,
    ) -> Result<WideKind<MasterColumn>, ReportRefusal>
        requires { rows + 1 < 2 ^ 32 }
        ensures { ReadsAs (λ k. k) result (left text.new) (wide_entry_at (master_column_branches (reader_names self.now)) rows (left text.old)) }
    {
        let row = row(rows, text)?;
        let column = self.master_column(true, text)?;
        Ok(WideKind::Product(row, column))
    }

    /// Takes what is too wide of a basis of the program of a certificate.
    fn master_wide(
        &self,
        rows: usize,
        text: &mut Cursor,
    ) -> Result<WideKind<MasterColumn>, ReportRefusal>
        requires { rows + 1 < 2 ^ 32 }
        ensures { ReadsAs (λ k. k) result (left text.new)
            (branch_at (master_wide_branches (master_column_branches (reader_names self.now)) rows) (left text.old)) }
    {
        let (at, word) = word(ReportKind::Token, ReportKind::Ended, text)?;
        if word == NUMBER {
            return self.master_number(text);
        }
        if word == ROW {
            return wide_row(rows, text);
        }
        if word == ENTRY {
            return self.master_entry(rows, text);
        }
        if word == SUM {
            return wide_sum(rows, text);
        }
        if word == COMMON {
            return Ok(WideKind::Common);
        }
        if word == VALUE {
            return Ok(WideKind::Value);
        }
        Err(bad(at, ReportKind::Token))
    }

    /// Takes capacities.
    #[tactic(auto, unfolding(crate::specs::ReadingQuality::caps_at))]
    fn caps(&self, text: &mut Cursor) -> Result<Caps, ReportRefusal>
        ensures { ReadsAs (λ c. c) result (left text.new) (caps_at (reader_links self.now) (left text.old)) }
    {
        let scale = medium(1, SCALE_LIMIT, text)?;
        let nums = capacities(self.alloc, self.context.net.links().len(), text)?;
        Ok(Caps { scale, nums })
    }

    /// Takes evidence on the routing of a state. There is no memory for a basis of 2^32 columns.
    #[tactic(auto, unfolding(crate::specs::ReadingQuality::route_at))]
    fn route(&self, text: &mut Cursor) -> Result<Evidence, ReportRefusal>
        ensures { ReadsAs (λ e. e) result (left text.new) (route_at (reader_names self.now) (reader_demands self.now) (left text.old)) }
    {
        let rows = self.context.net.links().len() + self.demands.list.len();
        if rows >= MAX_ROWS {
            return Err(Refusal::NoMemory);
        }
        let state = small(0, u128::from(self.context.states.count()), text)?;
        let caps = self.caps(text)?;
        let basis = self.route_basis(rows, text)?;
        let kind = self.route_wide(rows, text)?;
        Ok(Evidence::Route {
            state: StateId(state),
            caps,
            basis,
            kind,
        })
    }

    /// Takes evidence on a certificate.
    #[tactic(auto, unfolding(crate::specs::ReadingQuality::master_at))]
    fn master(&self, text: &mut Cursor) -> Result<Evidence, ReportRefusal>
        ensures { ReadsAs (λ e. e) result (left text.new) (master_at (reader_names self.now) (left text.old)) }
    {
        let rows = self.context.net.links().len();
        let basis = self.master_basis(rows, text)?;
        let kind = self.master_wide(rows, text)?;
        Ok(Evidence::Master { basis, kind })
    }

    /// Takes evidence of what was too wide: of the routing of a state, or of a certificate.
    ///
    /// A state, a row or a number that is out of its range, or a column too many or too few is `limit`.
    /// It takes memory for the capacities and the basis, which has a column for each link, and on a
    /// routing for each demand too.
    pub fn evidence(&self, text: &mut Cursor) -> Result<Evidence, ReportRefusal>
        ensures { ReadsAs (λ e. e) result (left text.new) (evidence_at (reader_names self.now) (reader_demands self.now) (left text.old)) }
    {
        let (at, word) = word(ReportKind::Token, ReportKind::Ended, text)?;
        if word == ROUTE {
            return self.route(text);
        }
        if word == MASTER {
            return self.master(text);
        }
        Err(bad(at, ReportKind::Token))
    }
}
