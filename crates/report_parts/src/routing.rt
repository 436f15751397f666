ghost use Rattle.std.specs.Prelude.{◌≡◌, ◌≤◌, length};
ghost use Rattle.snd_tokens.specs.Terms.{left};
ghost use Rattle.text_kit.specs.Terms.{ReadsAs};
ghost use Rattle.plan_report.specs.Terms.{state_name};
ghost use Rattle.report_words.specs.Terms.{this_name_at};
ghost use Rattle.report_parts.{specs.ReadingRoutings.{path_at, routings_at}, specs.Readers.{reader_demands, reader_links, reader_names}};

use crate::plan_reader::PlanReader;
use net_core::limits::MOST_FLOWS;
use net_core::{Flow, LinkId, List, Path, Routing, States};
use report_words::context::Context;
use report_words::element::{Element, list};
use report_words::fault::{ReportKind, ReportRefusal};
use report_words::numbers::of_length;
use report_words::words::{keyword_within, medium, number, opening, this, this_name};
use snd_tokens::Cursor;
use std::alloc::Global;

const STATE: &[u8] = b"state";

const NONE: &[u8] = b"none";

const NUM_LIMIT: u128 = 1 << 124;

const DEN_LIMIT: u128 = 1 << 62;

/// The links of a path.
#[derive(Clone, Copy)]
struct LinkList<'a> {
    context: &'a Context<'a>,
}

impl<'a> Element for LinkList<'a> {
    ghost use Rattle.text_kit.specs.Terms.{not_empty};
    ghost use Rattle.report_words.specs.Terms.{link_at};
    ghost use Rattle.report_words.specs.declared.fault.ReportKind.TheVariants.{Token};

    type Item = LinkId;

    ghost reading = { λ l _. link_at l.context.now.net.now.links };

    ghost fault = { λ _. not_empty Token };

    fn take(
        &self,
        alloc: Global,
        sofar: &[LinkId],
        text: &mut Cursor,
    ) -> Result<LinkId, ReportRefusal> {
        self.context.link(text)
    }

    fn fault(&self, all: &[LinkId]) -> Option<ReportKind> {
        if all.is_empty() {
            return Some(ReportKind::Token);
        }
        None
    }
}

/// The flows of a routing.
#[derive(Clone, Copy)]
struct FlowList<'a> {
    reader: PlanReader<'a>,
}

impl<'a> Element for FlowList<'a> {
    ghost use Rattle.text_kit.specs.Terms.{no_fault};
    ghost use Rattle.report_parts.specs.ReadingRoutings.{flow_at};
    ghost use Rattle.report_parts.specs.Readers.{reader_demands, reader_links};

    type Item = Flow;

    ghost reading = { λ l. flow_at (reader_links l.reader) (reader_demands l.reader) };

    ghost fault = { λ _. no_fault };

    #[tactic(auto, unfolding(crate::specs::ReadingRoutings::flow_at))]
    fn take(
        &self,
        _alloc: Global,
        sofar: &[Flow],
        text: &mut Cursor,
    ) -> Result<Flow, ReportRefusal> {
        let demand = self.reader.demands.next(sofar.len() < MOST_FLOWS, text)?;
        let num = number(1, NUM_LIMIT, text)?;
        let path = self.reader.path(text)?;
        Ok(Flow { demand, path, num })
    }

    fn fault(&self, _all: &[Flow]) -> Option<ReportKind> {
        None
    }
}

/// Takes the name of a state, `none` for state 0; another one is `unknown-name` or `limit-name`. It takes time in the bytes up to the name's end, and
/// no memory.
pub fn state_name(states: &States, state: u32, text: &mut Cursor) -> Result<(), ReportRefusal>
    requires { state ≤ length states.now.listed }
    ensures { ReadsAs (λ _. tt) result (left text.new) (this_name_at (state_name states.now.listed state) (left text.old)) }
{
    if state == 0 {
        return this_name(NONE, text);
    }
    this_name(
        states.listed().items()[state as usize - 1].name.bytes(),
        text,
    )
}

/// One routing for each state.
#[derive(Clone, Copy)]
struct RoutingList<'a> {
    reader: PlanReader<'a>,
}

impl<'a> Element for RoutingList<'a> {
    ghost use Rattle.std.specs.Prelude.{◌+◌, length};
    ghost use Rattle.text_kit.specs.Terms.{of_length};
    ghost use Rattle.report_parts.specs.ReadingRoutings.{routing_at};
    ghost use Rattle.report_parts.specs.Readers.{reader_demands, reader_names};
    ghost use Rattle.report_words.specs.declared.fault.ReportKind.TheVariants.{Limit};

    type Item = Routing;

    ghost reading = { λ l. routing_at (reader_names l.reader) (reader_demands l.reader) };

    ghost fault = { λ l. of_length (length (reader_names l.reader).listed + 1) Limit };

    #[tactic(auto, unfolding(crate::specs::ReadingRoutings::routing_at))]
    fn take(
        &self,
        alloc: Global,
        sofar: &[Routing],
        text: &mut Cursor,
    ) -> Result<Routing, ReportRefusal> {
        let states = self.reader.context.states;
        keyword_within(sofar.len() < states.count() as usize, STATE, text)?;
        this(sofar.len() as u64, text)?;
        state_name(states, sofar.len() as u32, text)?;
        let den = medium(1, DEN_LIMIT, text)?;
        opening(text)?;
        let reader = self.reader;
        let flows = list(alloc, &FlowList { reader }, text)?;
        Ok(Routing { den, flows })
    }

    fn fault(&self, all: &[Routing]) -> Option<ReportKind> {
        of_length(self.reader.context.states.count() as usize, all)
    }
}

impl<'a> PlanReader<'a> {
    /// Takes a path: the names of its links, one or more, between parentheses. An empty path is
    /// `token`, at its closing parenthesis, and an unknown link `unknown-name`. It takes memory for 4
    /// bytes a link.
    #[tactic(auto, unfolding(crate::specs::ReadingRoutings::path_at))]
    pub(crate) fn path(&self, text: &mut Cursor) -> Result<Path, ReportRefusal>
        ensures { ReadsAs (λ p. p) result (left text.new) (path_at (reader_links self.now) (left text.old)) }
    {
        opening(text)?;
        let context = self.context;
        list(self.alloc, &LinkList { context }, text)
    }

    /// Takes routings, one for each state in their order, between parentheses. Each has a denominator
    /// from 1 to below 2^62, and up to 65,536 flows: a demand's name, a numerator from 1 to below
    /// 2^124, and a path.
    ///
    /// A number that is out of its range, and a routing or flow too many or too few is `limit`. It
    /// takes memory for the flows and the links of their paths.
    #[tactic(auto, unfolding(crate::specs::ReadingRoutings::routings_at))]
    pub fn routings(&self, text: &mut Cursor) -> Result<List<Routing>, ReportRefusal>
        ensures { ReadsAs (λ l. l) result (left text.new) (routings_at (reader_names self.now) (reader_demands self.now) (left text.old)) }
    {
        opening(text)?;
        let reader = *self;
        list(self.alloc, &RoutingList { reader }, text)
    }
}
