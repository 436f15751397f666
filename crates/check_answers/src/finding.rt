ghost use Rattle.std.specs.Prelude.{◌≡◌, ◌++◌, ◌∷◌, [], IfOk, OnOk, codes, decimal};
ghost use Rattle.text_kit.specs.Terms.{money_word};
ghost use Rattle.check_answers.specs.Findings.{demands_of_outcome, demands_there, finding_words, place_words, rejected_line, accepted_line, spaced};

use net_core::{Bytes, Demand, Link, List, NoMemory, Places};
use plan_checker::Finding;
use plan_report::{demand_name, link_name};
use plan_types::Outcome;
use std::alloc::Global;
use text_kit::write::{put_decimal, put_money_word};

/// Puts a word last, after a space. It takes time in the word, and asks for memory only where the text has no room left.
pub fn put_word(text: &mut Bytes, word: &[u8]) -> Result<(), NoMemory>
    ensures { OnOk result (text.new ≡ text.old ++ 32 ∷ word.now) }
{
    text.append(b" ")?;
    text.append(word)
}

/// Puts a whole number last, after a space.
fn put_number(text: &mut Bytes, n: u128) -> Result<(), NoMemory>
    ensures { OnOk result (text.new ≡ text.old ++ 32 ∷ decimal n) }
{
    text.append(b" ")?;
    put_decimal(text, n)
}

/// Puts a word and a number last.
fn put_numbered(text: &mut Bytes, word: &[u8], n: u128) -> Result<(), NoMemory>
    ensures { OnOk result (text.new ≡ text.old ++ spaced (word.now ∷ decimal n ∷ [])) }
{
    put_word(text, word)?;
    put_number(text, n)
}

/// Puts a word and two numbers last.
fn put_pair(text: &mut Bytes, word: &[u8], a: u128, b: u128) -> Result<(), NoMemory>
    ensures { OnOk result (text.new ≡ text.old ++ spaced (word.now ∷ decimal a ∷ decimal b ∷ [])) }
{
    put_numbered(text, word, a)?;
    put_number(text, b)
}

/// Puts a word, the number of a line, and two numbers last.
fn put_line_pair(text: &mut Bytes, word: &[u8], line: u32, a: u128, b: u128) -> Result<(), NoMemory>
    ensures { OnOk result (text.new ≡ text.old ++ spaced (word.now ∷ decimal line ∷ decimal a ∷ decimal b ∷ [])) }
{
    put_pair(text, word, line as u128, a)?;
    put_number(text, b)
}

/// Puts a word and two amounts of money last.
fn put_costs(
    text: &mut Bytes,
    places: Places,
    word: &[u8],
    a: u128,
    b: u128,
) -> Result<(), NoMemory>
    ensures { OnOk result (text.new ≡ text.old ++ spaced (word.now ∷ money_word places a ∷ money_word places b ∷ [])) }
{
    put_word(text, word)?;
    text.append(b" ")?;
    put_money_word(text, places, a)?;
    text.append(b" ")?;
    put_money_word(text, places, b)
}

/// Puts a word, the number of a state, and a name last.
fn put_named(text: &mut Bytes, word: &[u8], state: u32, name: &[u8]) -> Result<(), NoMemory>
    ensures { OnOk result (text.new ≡ text.old ++ spaced (word.now ∷ decimal state ∷ name.now ∷ [])) }
{
    put_numbered(text, word, state as u128)?;
    put_word(text, name)
}

/// Puts the words for the module at this place of a link, which is worth more than it costs, last.
fn put_price(text: &mut Bytes, name: &[u8], place: u32) -> Result<(), NoMemory>
    ensures { OnOk result (text.new ≡ text.old ++ spaced (codes "price-exceeded" ∷ name.now ∷ decimal place ∷ [])) }
{
    put_word(text, b"price-exceeded")?;
    put_word(text, name)?;
    put_number(text, place as u128)
}

/// Puts the words of a finding last, with money of these places.
fn put_finding(
    text: &mut Bytes,
    places: Places,
    links: &[Link],
    demands: &[Demand],
    finding: Finding,
) -> Result<(), NoMemory>
    ensures { OnOk result (text.new ≡ text.old ++ spaced (finding_words places links.now demands.now finding)) }
{
    match finding {
        Finding::NotesDiffer => put_word(text, b"notes-differ"),
        Finding::EntryDiffers(at) => put_numbered(text, b"entry-differs", at as u128),
        Finding::PoolCount(a, b) => put_pair(text, b"pool-count", a as u128, b as u128),
        Finding::BadCut(i) => put_numbered(text, b"bad-cut", i as u128),
        Finding::PoolDiffers(i, a, b) => put_line_pair(text, b"pool-differs", i, a, b),
        Finding::VersionDiffers(a, b) => put_pair(text, b"version-differs", a as u128, b as u128),
        Finding::DemandsDiffer => put_word(text, b"demands-differ"),
        Finding::Survivable => put_word(text, b"survivable"),
        Finding::BadPath(s, flow) => put_pair(text, b"bad-path", s.0 as u128, flow as u128),
        Finding::NotCarried(s, k) => put_named(text, b"not-carried", s.0, demand_name(demands, k)),
        Finding::Overloaded(s, e) => put_named(text, b"overloaded", s.0, link_name(links, e)),
        Finding::CostDiffers(a, b) => put_costs(text, places, b"cost-differs", a, b),
        Finding::LocalCut(i) => put_numbered(text, b"local-cut", i as u128),
        Finding::RightDiffers(i, a, b) => put_line_pair(text, b"right-differs", i, a, b),
        Finding::PriceExceeded(e, m) => put_price(text, link_name(links, e), m),
        Finding::CertificateWide => put_word(text, b"certificate-wide"),
        Finding::RawDiffers => put_word(text, b"raw-differs"),
        Finding::BoundDiffers(a, b) => put_costs(text, places, b"bound-differs", a, b),
        Finding::NotTight => put_word(text, b"not-tight"),
    }
}

/// The demands of an outcome, by which a finding names one.
fn demands_of(outcome: &Outcome) -> &[Demand]
    ensures { result.now ≡ demands_of_outcome outcome.now }
{
    match outcome {
        Outcome::Planned { plan, .. } => plan.demands.items(),
        Outcome::Unsurvivable { .. } => &[],
    }
}

/// The demands of the outcome of this number, counted from 1.
fn demands_there(outcomes: &[Outcome], outcome: u32) -> &[Demand]
    ensures { result.now ≡ demands_there outcomes.now outcome }
{
    if outcome == 0 {
        return &[];
    }
    match outcomes.get(outcome as usize - 1) {
        Some(found) => demands_of(found),
        None => &[],
    }
}

/// Puts the words for an outcome last; nothing where a finding concerns the whole report.
fn put_place(text: &mut Bytes, outcome: u32) -> Result<(), NoMemory>
    ensures { OnOk result (text.new ≡ text.old ++ spaced (place_words outcome)) }
{
    if outcome == 0 {
        return Ok(());
    }
    put_numbered(text, b"outcome", outcome as u128)
}

/// The line of a report with this first finding, on the outcome of this number from 1, or on the whole report with 0. Money has so
/// many places.
pub fn rejected_line(
    alloc: Global,
    places: Places,
    links: &[Link],
    outcomes: &[Outcome],
    outcome: u32,
    finding: Finding,
) -> Result<Bytes, NoMemory>
    ensures { IfOk result (λ text. text ≡ rejected_line places links.now outcomes.now outcome finding) }
{
    let mut text = List::new(alloc);
    text.append(b"rejected")?;
    put_place(&mut text, outcome)?;
    let demands = demands_there(outcomes, outcome);
    put_finding(&mut text, places, links, demands, finding)?;
    text.append(b"\n")?;
    Ok(text)
}

/// The line of a report without a finding, with how many outcomes it has.
pub fn accepted_line(alloc: Global, outcomes: usize) -> Result<Bytes, NoMemory>
    ensures { IfOk result (λ text. text ≡ accepted_line outcomes) }
{
    let mut text = List::new(alloc);
    text.append(b"accepted ")?;
    put_decimal(&mut text, outcomes as u128)?;
    text.append(b"\n")?;
    Ok(text)
}
