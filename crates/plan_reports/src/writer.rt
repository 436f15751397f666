ghost use Rattle.std.specs.Prelude.{◌≡◌, ◌++◌, All, IfOk, OnOk, map};
ghost use Rattle.plan_terms.specs.Terms.{case_of};
ghost use Rattle.plan_report.specs.Terms.{known_of, report_text, SpellsReport};
ghost use Rattle.report_comments.specs.Comments.{AddsLines};
ghost use Rattle.plan_reports.{specs.LonePlans.whole_report, specs.BlockLines.{IsTold, block_items, block_lines}, specs.TrimmedReports.IsTrimmedReport};

use crate::comments::put_blocks;
use crate::planned_report::PlannedReport;
use net_core::{Bytes, Instance, List, NoMemory};
use plan_report::write_report;
use std::alloc::Global;
use trim_plan::Block;

/// Appends a comment line for each block of an instance's plan.
fn put_lines(text: &mut Bytes, instance: &Instance, blocks: &List<Block>) -> Result<(), NoMemory>
    requires { All (λ b. IsTold b.why) blocks.now }
    ensures { OnOk result (AddsLines text.old (map (block_items instance.now.net.now.links instance.now.demands.now) blocks.now) text.new) }
{
    put_blocks(
        text,
        instance.net.links().items(),
        instance.demands.items(),
        blocks.items(),
    )
}

/// The text of a trimmed plan's report, with a comment line at the end for each block. Of two modules of 10.00 on the link AC of the
/// triangle neither can be spared, which the line `# blocked AC 0 cut 0 right 12000 lengths 1 1 1` tells; the right side is in thousandths.
/// Reading the text gives the report again.
///
/// It takes time and memory in the number of the text's bytes.
pub fn write_trimmed(
    alloc: Global,
    instance: &Instance,
    report: PlannedReport,
    blocks: &List<Block>,
) -> Result<Bytes, NoMemory>
    requires { IsTrimmedReport (case_of instance.now) instance.now.net.now.notes report blocks.now }
    ensures text { IfOk result (λ text. text
        ≡ report_text (known_of instance.now.net.now instance.now.states.now) (whole_report report)
        ++ block_lines instance.now.net.now.links instance.now.demands.now blocks.now) }
    ensures spelled { IfOk result (λ text. SpellsReport (known_of instance.now.net.now instance.now.states.now) text (whole_report report)) }
{
    let whole = report.into_report(alloc)?;
    let mut text = write_report(alloc, instance.net, instance.states, &whole)?;
    put_lines(&mut text, instance, blocks)?;
    Ok(text)
}
