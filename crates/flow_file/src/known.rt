ghost use Rattle.std.specs.Prelude.{◌≡◌, ◌≢◌, ◌≤◌, AllPairs, IfOk, length, map};
ghost use Rattle.snd_tokens.specs.Terms.{left};
ghost use Rattle.text_kit.specs.Terms.{ReadsAs};
ghost use Rattle.report_words.specs.Terms.{demand_of, demand_within};

use net_core::{Demand, NoMemory};
use report_parts::demands::demand_places;
use report_words::fault::{ReportKind, ReportRefusal};
use report_words::places::Places;
use report_words::words::unknown_name;
use snd_tokens::Cursor;
use std::alloc::Global;
use text_kit::refusal::bad;
use text_kit::steps::word;

/// The demands of a network, which are found by their names, in time that doesn't grow with their number. The names are lent.
#[derive(Drop)]
pub(crate) struct KnownDemands<'a> {
    pub(crate) list: &'a [Demand],
    places: Places<'a>,
    ghost names: { places ≡ map (λ d. d.name) list.now },
    ghost few: { length list.now ≤ 2048 },
}

impl<'a> KnownDemands<'a> {
    /// Demands whose names are all different. It takes time and memory in their number.
    pub(crate) fn new(alloc: Global, list: &'a [Demand]) -> Result<KnownDemands<'a>, NoMemory>
        requires few { length list.now ≤ 2048 }
        requires different { AllPairs (λ x y. x.name ≢ y.name) list.now }
        ensures { IfOk result (λ k. k.list.now ≡ list.now) }
    {
        let places = demand_places(alloc, list)?;
        Ok(KnownDemands { list, places })
    }

    /// The demand that a word names.
    fn demand_of(&self, word: &[u8]) -> Result<u32, ReportKind>
        ensures { result ≡ demand_of self.now.list.now word.now }
    {
        match self.places.find(word) {
            Some(place) => Ok(place as u32),
            None => Err(unknown_name(word)),
        }
    }

    /// Takes the name of a demand, where there is room for what it begins.
    pub(crate) fn next(&self, room: bool, text: &mut Cursor) -> Result<u32, ReportRefusal>
        ensures { ReadsAs (λ k. k) result (left text.new) (demand_within room self.now.list.now (left text.old)) }
    {
        let (at, word) = word(ReportKind::Token, ReportKind::Ended, text)?;
        match self.demand_of(word) {
            Ok(place) => {
                if room {
                    return Ok(place);
                }
                Err(bad(at, ReportKind::Limit))
            }
            Err(kind) => Err(bad(at, kind)),
        }
    }
}
