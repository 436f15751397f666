ghost use Rattle.std.specs.Prelude.{◌≡◌};
ghost use Rattle.snd_tokens.specs.Terms.{left};
ghost use Rattle.text_kit.specs.Terms.{ReadsAs};
ghost use Rattle.report_words.specs.Terms.{branch_within};
ghost use Rattle.report_parts.{specs.ReadingQuality.{basis_at, carry_at, left_at, master_column_branches, metric_at, price_at, route_column_branches, slack_at}, specs.Readers.{reader_demands, reader_links, reader_names}};

use crate::plan_reader::PlanReader;
use net_core::{List, MasterColumn, RouteColumn, StateId};
use report_words::element::{Element, list};
use report_words::fault::{ReportKind, ReportRefusal};
use report_words::numbers::{lengths, of_length};
use report_words::words::{opening, small};
use snd_tokens::Cursor;
use std::alloc::Global;
use text_kit::refusal::bad;
use text_kit::steps::word;

const LINK: &[u8] = b"link";

const DEMAND: &[u8] = b"demand";

const FLOW: &[u8] = b"flow";

const CUT: &[u8] = b"cut";

/// A basis of the routing program.
#[derive(Clone, Copy)]
struct RouteBasis<'a> {
    reader: PlanReader<'a>,
    rows: usize,
}

impl<'a> Element for RouteBasis<'a> {
    ghost use Rattle.text_kit.specs.Terms.{of_length};
    ghost use Rattle.report_words.specs.Terms.{branch_within, has_room};
    ghost use Rattle.report_parts.specs.ReadingQuality.{route_column_branches};
    ghost use Rattle.report_parts.specs.Readers.{reader_demands, reader_links};
    ghost use Rattle.report_words.specs.declared.fault.ReportKind.TheVariants.{Limit};

    type Item = RouteColumn;

    ghost reading = { λ b sofar. branch_within (has_room b.rows sofar) (route_column_branches (reader_links b.reader) (reader_demands b.reader)) };

    ghost fault = { λ b. of_length b.rows Limit };

    fn take(
        &self,
        _alloc: Global,
        sofar: &[RouteColumn],
        text: &mut Cursor,
    ) -> Result<RouteColumn, ReportRefusal> {
        self.reader.route_column(sofar.len() < self.rows, text)
    }

    fn fault(&self, all: &[RouteColumn]) -> Option<ReportKind> {
        of_length(self.rows, all)
    }
}

/// A basis of the program of a certificate.
#[derive(Clone, Copy)]
struct MasterBasis<'a> {
    reader: PlanReader<'a>,
    rows: usize,
}

impl<'a> Element for MasterBasis<'a> {
    ghost use Rattle.text_kit.specs.Terms.{of_length};
    ghost use Rattle.report_words.specs.Terms.{branch_within, has_room};
    ghost use Rattle.report_parts.specs.ReadingQuality.{master_column_branches};
    ghost use Rattle.report_parts.specs.Readers.{reader_names};
    ghost use Rattle.report_words.specs.declared.fault.ReportKind.TheVariants.{Limit};

    type Item = MasterColumn;

    ghost reading = { λ b sofar. branch_within (has_room b.rows sofar) (master_column_branches (reader_names b.reader)) };

    ghost fault = { λ b. of_length b.rows Limit };

    fn take(
        &self,
        _alloc: Global,
        sofar: &[MasterColumn],
        text: &mut Cursor,
    ) -> Result<MasterColumn, ReportRefusal> {
        self.reader.master_column(sofar.len() < self.rows, text)
    }

    fn fault(&self, all: &[MasterColumn]) -> Option<ReportKind> {
        of_length(self.rows, all)
    }
}

impl<'a> PlanReader<'a> {
    /// Takes what a link has left.
    #[tactic(auto, unfolding(crate::specs::ReadingQuality::slack_at))]
    fn slack(&self, text: &mut Cursor) -> Result<RouteColumn, ReportRefusal>
        ensures { ReadsAs (λ c. c) result (left text.new) (slack_at (reader_links self.now) (left text.old)) }
    {
        let link = self.context.link(text)?;
        Ok(RouteColumn::LinkSlack(link))
    }

    /// Takes what of a demand isn't carried.
    #[tactic(auto, unfolding(crate::specs::ReadingQuality::left_at))]
    fn uncarried(&self, text: &mut Cursor) -> Result<RouteColumn, ReportRefusal>
        ensures { ReadsAs (λ c. c) result (left text.new) (left_at (reader_demands self.now) (left text.old)) }
    {
        let demand = self.demands.demand(text)?;
        Ok(RouteColumn::DemandSlack(demand))
    }

    /// Takes a demand along a path.
    #[tactic(auto, unfolding(crate::specs::ReadingQuality::carry_at))]
    fn carry(&self, text: &mut Cursor) -> Result<RouteColumn, ReportRefusal>
        ensures { ReadsAs (λ c. c) result (left text.new) (carry_at (reader_links self.now) (reader_demands self.now) (left text.old)) }
    {
        let demand = self.demands.demand(text)?;
        let path = self.path(text)?;
        Ok(RouteColumn::Carry(demand, path))
    }

    /// Takes a column of the routing program, where there is room for one. Where there is none, its
    /// word is `limit`; an unknown link or demand is `unknown-name`. It takes memory for the links of a
    /// path.
    pub(crate) fn route_column(
        &self,
        room: bool,
        text: &mut Cursor,
    ) -> Result<RouteColumn, ReportRefusal>
        ensures { ReadsAs (λ c. c) result (left text.new)
            (branch_within room (route_column_branches (reader_links self.now) (reader_demands self.now)) (left text.old)) }
    {
        let (at, word) = word(ReportKind::Token, ReportKind::Ended, text)?;
        if word != LINK && word != DEMAND && word != FLOW {
            return Err(bad(at, ReportKind::Token));
        }
        if !room {
            return Err(bad(at, ReportKind::Limit));
        }
        if word == LINK {
            return self.slack(text);
        }
        if word == DEMAND {
            return self.uncarried(text);
        }
        self.carry(text)
    }

    /// Takes a basis of the routing program, as many columns as rows, between parentheses. A column too
    /// many or too few is `limit`.
    #[tactic(auto, unfolding(crate::specs::ReadingQuality::basis_at))]
    pub(crate) fn route_basis(
        &self,
        rows: usize,
        text: &mut Cursor,
    ) -> Result<List<RouteColumn>, ReportRefusal>
        ensures { ReadsAs (λ l. l) result (left text.new)
            (basis_at (route_column_branches (reader_links self.now) (reader_demands self.now)) rows (left text.old)) }
    {
        opening(text)?;
        let reader = *self;
        list(self.alloc, &RouteBasis { reader, rows }, text)
    }

    /// Takes what a link's price leaves of its cost.
    #[tactic(auto, unfolding(crate::specs::ReadingQuality::price_at))]
    fn price(&self, text: &mut Cursor) -> Result<MasterColumn, ReportRefusal>
        ensures { ReadsAs (λ c. c) result (left text.new) (price_at (reader_links self.now) (left text.old)) }
    {
        let link = self.context.link(text)?;
        Ok(MasterColumn::LinkSlack(link))
    }

    /// Takes a cut.
    #[tactic(auto, unfolding(crate::specs::ReadingQuality::metric_at))]
    fn metric(&self, text: &mut Cursor) -> Result<MasterColumn, ReportRefusal>
        ensures { ReadsAs (λ c. c) result (left text.new) (metric_at (reader_names self.now) (left text.old)) }
    {
        let state = small(0, u128::from(self.context.states.count()), text)?;
        let lengths = lengths(self.alloc, self.context.net.links().len(), text)?;
        Ok(MasterColumn::Metric(StateId(state), lengths))
    }

    /// Takes a column of the program of a certificate, where there is room for one. Where there is
    /// none, its word is `limit`; an unknown link is `unknown-name`. It takes memory for the lengths of
    /// a cut, one for each link.
    pub(crate) fn master_column(
        &self,
        room: bool,
        text: &mut Cursor,
    ) -> Result<MasterColumn, ReportRefusal>
        ensures { ReadsAs (λ c. c) result (left text.new) (branch_within room (master_column_branches (reader_names self.now)) (left text.old)) }
    {
        let (at, word) = word(ReportKind::Token, ReportKind::Ended, text)?;
        if word != LINK && word != CUT {
            return Err(bad(at, ReportKind::Token));
        }
        if !room {
            return Err(bad(at, ReportKind::Limit));
        }
        if word == LINK {
            return self.price(text);
        }
        self.metric(text)
    }

    /// Takes a basis of the program of a certificate, as many columns as rows, between parentheses. A
    /// column too many or too few is `limit`.
    #[tactic(auto, unfolding(crate::specs::ReadingQuality::basis_at))]
    pub(crate) fn master_basis(
        &self,
        rows: usize,
        text: &mut Cursor,
    ) -> Result<List<MasterColumn>, ReportRefusal>
        ensures { ReadsAs (λ l. l) result (left text.new) (basis_at (master_column_branches (reader_names self.now)) rows (left text.old)) }
    {
        opening(text)?;
        let reader = *self;
        list(self.alloc, &MasterBasis { reader, rows }, text)
    }
}
