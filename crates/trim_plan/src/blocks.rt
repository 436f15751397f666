ghost use Rattle.std.specs.Prelude.{◌≡◌, ◌<◌, ◌++◌, [], All, IfOk, IsTrue, MatchOption, OnOk, false, length, slice_index_or};
ghost use Rattle.plan_terms.specs.Terms.{case_of, IsSurvivable};
ghost use Rattle.able_counts.specs.AbleTests.{AreRoutedCounts};
ghost use Rattle.trim_plan.{specs.Trimmed.{AreAtMost, IsTrimmedBy, modules_in_use, IsBlockAt}, specs.inner.Sparing.{LowersCounts, block_places}};

use crate::lowered_counts::{Place, module_count};
use crate::spared_modules::take_off;
use crate::trimmed_plan::Block;
use able_counts::AbleTest;
use net_core::{Counts, Instance, LinkId, List, NoMemory};
use std::alloc::Global;

/// Appends the blocks of a link's modules; `false` if a module is taken off instead.
fn add_blocks(
    instance: &Instance,
    test: &mut AbleTest,
    counts: &mut Counts,
    link: usize,
    blocks: &mut List<Block>,
) -> Result<bool, NoMemory>
    requires survivable { IsSurvivable (case_of instance.now) }
    requires routed { AreRoutedCounts (case_of instance.now) counts.old test.old }
    requires link { link < length instance.now.net.now.links }
    requires blocked { All (IsBlockAt (case_of instance.now) counts.old) blocks.old }
    ensures routed { OnOk result (AreRoutedCounts (case_of instance.now) counts.new test.new) }
    ensures lowered { IfOk result (λ b. b ≡ false → LowersCounts counts.old counts.new) }
    ensures same { IfOk result (λ b. IsTrue b → counts.new ≡ counts.old) }
    ensures blocked { IfOk result (λ b. IsTrue b → All (IsBlockAt (case_of instance.now) counts.old) blocks.new) }
    ensures places { IfOk result (λ b. IsTrue b
        → block_places blocks.new ≡ block_places blocks.old
        ++ modules_in_use link 0 (slice_index_or counts.old link [])) }
{
    for m in 0..instance.net.links().items()[link].modules.len() {
        let place = Place { link, module: m };
        if module_count(counts, place) > 0 {
            match take_off(instance, test, counts, place)? {
                Some(why) => blocks.push(Block {
                    link: LinkId(link as u32),
                    module: m as u32,
                    why,
                })?,
                None => return Ok(false),
            }
        }
    }
    Ok(true)
}

/// Fills an empty list with a block for each module of positive count; `false` if a module is taken off instead.
fn add_all_blocks(
    instance: &Instance,
    test: &mut AbleTest,
    counts: &mut Counts,
    blocks: &mut List<Block>,
) -> Result<bool, NoMemory>
    requires survivable { IsSurvivable (case_of instance.now) }
    requires routed { AreRoutedCounts (case_of instance.now) counts.old test.old }
    requires empty { blocks.old ≡ [] }
    ensures routed { OnOk result (AreRoutedCounts (case_of instance.now) counts.new test.new) }
    ensures lowered { IfOk result (λ b. b ≡ false → LowersCounts counts.old counts.new) }
    ensures trimmed { IfOk result (λ b. IsTrue b → (counts.new ≡ counts.old) × IsTrimmedBy (case_of instance.now) counts.old blocks.new) }
{
    for e in 0..instance.net.links().len() {
        if !add_blocks(instance, test, counts, e, blocks)? {
            return Ok(false);
        }
    }
    Ok(true)
}

/// A block for each module of positive count; `None` if a module is taken off instead.
fn blocks_or_less(
    alloc: Global,
    instance: &Instance,
    test: &mut AbleTest,
    counts: &mut Counts,
) -> Result<Option<List<Block>>, NoMemory>
    requires survivable { IsSurvivable (case_of instance.now) }
    requires routed { AreRoutedCounts (case_of instance.now) counts.old test.old }
    ensures routed { OnOk result (AreRoutedCounts (case_of instance.now) counts.new test.new) }
    ensures blocks { IfOk result (λ o. MatchOption o (LowersCounts counts.old counts.new)
        (λ blocks. (counts.new ≡ counts.old) × IsTrimmedBy (case_of instance.now) counts.old blocks)) }
{
    let mut blocks = List::new(alloc);
    if add_all_blocks(instance, test, counts, &mut blocks)? {
        Ok(Some(blocks))
    } else {
        Ok(None)
    }
}

/// A block for each module of positive count, when all modules that can be spared are taken off.
pub(crate) fn settled_blocks(
    alloc: Global,
    instance: &Instance,
    test: &mut AbleTest,
    counts: &mut Counts,
) -> Result<List<Block>, NoMemory>
    requires survivable { IsSurvivable (case_of instance.now) }
    requires routed { AreRoutedCounts (case_of instance.now) counts.old test.old }
    ensures routed { OnOk result (AreRoutedCounts (case_of instance.now) counts.new test.new) }
    ensures fewer { OnOk result (AreAtMost counts.new counts.old) }
    ensures blocks { IfOk result (IsTrimmedBy (case_of instance.now) counts.new) }
{
    'settle: loop {
        if let Some(blocks) = blocks_or_less(alloc, instance, test, counts)? {
            return Ok(blocks);
        }
    }
}
