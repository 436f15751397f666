ghost use Rattle.std.specs.Prelude.{◌≡◌, ◌+◌, ◌∷◌, ◌++◌, ◌<◌, ◌≤◌, ◌^◌, ◌*◌, [], ℕ, List, length, min, nat_lt, None, Some};
ghost use Rattle.snd_tokens.specs.Terms.{left};
ghost use Rattle.plan_terms.specs.Terms.{modules_capacity};
ghost use Rattle.text_kit.specs.Terms.{Fails, ReadsAs};
ghost use Rattle.report_words.specs.Terms.{whole_within};
ghost use Rattle.report_parts.specs.ReadingParts.{all_counts_at, count_within, counts_at, modules_at};

use net_core::{Counts, Link, List};
use report_words::element::{Element, list};
use report_words::fault::{ReportKind, ReportRefusal};
use report_words::numbers::of_length;
use report_words::words::{keyword, opening, this_name, unknown_name, whole_within};
use snd_tokens::Cursor;
use std::alloc::Global;
use text_kit::refusal::bad;
use text_kit::steps::{placed, word};

const MODULES: &[u8] = b"MODULES";

const COUNT_LIMIT: u128 = 1 << 44;

const CAPACITY_LIMIT: u64 = 1 << 46;

/// The capacity with `count` modules of capacity `each` more; at most the limit.
fn capped(before: u64, each: u64, count: u64) -> u64
    requires { before ≤ 2 ^ 46 }
    ensures { result ≡ min (before + each * count) (2 ^ 46) }
{
    let added = u128::from(each) * u128::from(count);
    if added >= u128::from(CAPACITY_LIMIT) {
        return CAPACITY_LIMIT;
    }
    let capacity = before + added as u64;
    if capacity >= CAPACITY_LIMIT {
        return CAPACITY_LIMIT;
    }
    capacity
}

/// The capacity of a link with these counts of its first modules; at most the limit.
fn capacity(link: &Link, counts: &[u64]) -> u64
    requires { length counts.now ≤ length link.now.modules }
    ensures { result ≡ min (link.now.fixed + modules_capacity link.now.modules counts.now) (2 ^ 46) }
{
    let mut capacity = capped(0, link.fixed, 1);
    for i in 0..counts.len() {
        capacity = capped(capacity, link.modules.items()[i].capacity, counts[i]);
    }
    capacity
}

/// Whether a link with these counts of its first modules and `count` of the next one stays below the
/// limit of its capacity.
fn fits(link: &Link, sofar: &[u64], count: u64) -> bool
    requires { length sofar.now < length link.now.modules }
    ensures { result ≡ nat_lt (link.now.fixed + modules_capacity link.now.modules (sofar.now ++ count ∷ [])) (2 ^ 46) }
{
    capped(
        capacity(link, sofar),
        link.modules.items()[sofar.len()].capacity,
        count,
    ) < CAPACITY_LIMIT
}

/// The count that a word writes after these ones.
fn count_of(link: &Link, sofar: &[u64], word: &[u8]) -> Result<u64, ReportKind>
    ensures { result ≡ count_within link.now sofar.now (whole_within 0 (2 ^ 44) word.now) }
{
    let count = whole_within(0, COUNT_LIMIT, word)? as u64;
    if sofar.len() < link.modules.len() && fits(link, sofar, count) {
        return Ok(count);
    }
    Err(ReportKind::Limit)
}

/// The counts of a link's modules.
#[derive(Clone, Copy)]
struct CountList<'a> {
    link: &'a Link,
}

impl<'a> Element for CountList<'a> {
    ghost use Rattle.std.specs.Prelude.{length};
    ghost use Rattle.text_kit.specs.Terms.{of_length};
    ghost use Rattle.report_parts.specs.ReadingParts.{count_at};
    ghost use Rattle.report_words.specs.declared.fault.ReportKind.TheVariants.{Limit};

    type Item = u64;

    ghost reading = { λ l. count_at l.link.now };

    ghost fault = { λ l. of_length (length l.link.now.modules) Limit };

    fn take(&self, alloc: Global, sofar: &[u64], text: &mut Cursor) -> Result<u64, ReportRefusal> {
        let (at, word) = word(ReportKind::Token, ReportKind::Ended, text)?;
        placed(at, count_of(self.link, sofar, word))
    }

    fn fault(&self, all: &[u64]) -> Option<ReportKind> {
        of_length(self.link.modules.len(), all)
    }
}

/// Takes the name of the next link and the counts of its modules.
#[tactic(auto, unfolding(crate::specs::ReadingParts::counts_at))]
fn known_counts(alloc: Global, link: &Link, text: &mut Cursor) -> Result<List<u64>, ReportRefusal>
    ensures { ReadsAs (λ l. l) result (left text.new) (counts_at (Some link.now) (left text.old)) }
{
    this_name(link.name.bytes(), text)?;
    opening(text)?;
    list(alloc, &CountList { link }, text)
}

/// Takes a name after that of the last link.
#[tactic(auto, unfolding(crate::specs::ReadingParts::counts_at))]
fn unknown_counts(text: &mut Cursor) -> ReportRefusal
    ensures { Fails {Y = List ℕ} result (counts_at None (left text.old)) }
{
    match word(ReportKind::Token, ReportKind::Ended, text) {
        Ok((at, word)) => bad(at, unknown_name(word)),
        Err(refusal) => refusal,
    }
}

/// The counts of all links.
#[derive(Clone, Copy)]
struct ModuleList<'a> {
    links: &'a [Link],
}

impl<'a> Element for ModuleList<'a> {
    ghost use Rattle.std.specs.Prelude.{length};
    ghost use Rattle.text_kit.specs.Terms.{of_length};
    ghost use Rattle.report_parts.specs.ReadingParts.{next_counts_at};
    ghost use Rattle.report_words.specs.declared.fault.ReportKind.TheVariants.{Limit};

    type Item = List<u64>;

    ghost reading = { λ l. next_counts_at l.links.now };

    ghost fault = { λ l. of_length (length l.links.now) Limit };

    fn take(
        &self,
        alloc: Global,
        sofar: &[List<u64>],
        text: &mut Cursor,
    ) -> Result<List<u64>, ReportRefusal> {
        match self.links.get(sofar.len()) {
            Some(link) => known_counts(alloc, link, text),
            None => Err(unknown_counts(text)),
        }
    }

    fn fault(&self, all: &[List<u64>]) -> Option<ReportKind> {
        of_length(self.links.len(), all)
    }
}

/// Takes the counts of all links, up to a closing parenthesis: for each link, in the network's order, its name and how many of each
/// of its modules there are. It has the faults and the cost of `modules`.
pub fn all_counts(alloc: Global, links: &[Link], text: &mut Cursor) -> Result<Counts, ReportRefusal>
    ensures { ReadsAs (λ l. l) result (left text.new) (all_counts_at links.now (left text.old)) }
{
    list(alloc, &ModuleList { links }, text)
}

/// Takes the modules of all links: for each link, in the network's order, its name and how many of each of its modules there are.
///
/// A name other than the next link's is `unknown-name`. A count of 2^44 or more, one with which the link's capacity would reach
/// 2^46 units, and one too many or too few are `limit`. For each count it sums up the link's capacity from the first one,
/// which takes time in the square of the link's modules. It takes memory for 8 bytes a count.
#[tactic(auto, unfolding(crate::specs::ReadingParts::modules_at))]
pub fn modules(alloc: Global, links: &[Link], text: &mut Cursor) -> Result<Counts, ReportRefusal>
    ensures { ReadsAs (λ l. l) result (left text.new) (modules_at links.now (left text.old)) }
{
    keyword(MODULES, text)?;
    opening(text)?;
    all_counts(alloc, links, text)
}
