ghost use Rattle.std.specs.Prelude.{◌≡◌, ◌≤◌, ◌+◌, ◌++◌, IfOk, OnOk, decimal, length};
ghost use Rattle.plan_terms.specs.Terms.{AreDemands, Three, case_of, IsSurvivable};
ghost use Rattle.sample_net.specs.Samples.{no_notes, sample_demands, sample_links, sample_nodes, with_single_failures};
ghost use Rattle.plan_reports.specs.Terms.{IsTranscript, plan_commands};
ghost use Rattle.proof_report.specs.Terms.{whole_report};
ghost use Rattle.text_kit.specs.Terms.{money_word};
ghost use Rattle.outside_io.specs.declared.status.Status.{Status};
ghost use Rattle.command_answers.specs.Answers.{IsSummary, quality_word, raw_lines, sample_case, size_line, summary};

use model_reader::single_links;
use net_core::{Bytes, Demands, Instance, List, Network, NoMemory, Places};
use outside_io::{Answer, OpenGate, Status};
use plan_reports::{LonePlan, PlannedReport, plan_once};
use plan_types::{Plan, Quality};
use sample_net::{network_text, sample};
use sndlib_reader::{ReadRefusal, read_network};
use std::alloc::Global;
use std::sync::Wait;
use std::thread::Threads;
use text_kit::write::{put_decimal, put_money_word};

/// Appends words and a number.
fn put_counted(text: &mut Bytes, words: &[u8], n: u128) -> Result<(), NoMemory>
    ensures { OnOk result (text.new ≡ text.old ++ words.now ++ decimal n) }
{
    text.append(words)?;
    put_decimal(text, n)
}

/// Appends words and an amount of money with three decimal places.
fn put_cost(text: &mut Bytes, words: &[u8], n: u128) -> Result<(), NoMemory>
    ensures { OnOk result (text.new ≡ text.old ++ words.now ++ money_word Three n) }
{
    text.append(words)?;
    put_money_word(text, Places::Three, n)
}

/// The sample network of a seed, and its demands, as they are read back from their text.
fn read_back(alloc: Global, seed: u64, nodes: u32) -> Result<(Network, Demands), NoMemory>
    requires { (4 ≤ nodes) × (nodes ≤ 40) }
    ensures nodes { IfOk result (λ read. read.0.nodes ≡ sample_nodes nodes) }
    ensures links { IfOk result (λ read. read.0.links ≡ sample_links seed nodes) }
    ensures notes { IfOk result (λ read. read.0.notes ≡ no_notes) }
    ensures places { IfOk result (λ read. read.0.places ≡ Three) }
    ensures demands { IfOk result (λ read. read.1 ≡ sample_demands seed nodes) }
    ensures belong { IfOk result (λ read. AreDemands (length read.0.nodes) read.1) }
    ensures survivable { IfOk result (λ read. IsSurvivable (with_single_failures read.0.nodes read.0.links read.1)) }
{
    let (net, demands) = sample(alloc, seed, nodes)?;
    let text = network_text(alloc, &net, &demands)?;
    match read_network(alloc, text.items()) {
        Ok(read) => Ok(read),
        Err(ReadRefusal::Bad { .. }) => unreachable!(),
        Err(ReadRefusal::NoMemory) => Err(NoMemory),
    }
}

/// Appends the line of a network's size.
fn put_size(text: &mut Bytes, instance: &Instance) -> Result<(), NoMemory>
    ensures { OnOk result (text.new ≡ text.old ++ size_line (case_of instance.now)) }
{
    put_counted(text, b"nodes ", instance.net.nodes().len() as u128)?;
    put_counted(text, b" links ", instance.net.links().len() as u128)?;
    put_counted(text, b" demands ", instance.demands.len() as u128)?;
    put_counted(
        text,
        b" states ",
        instance.states.listed().len() as u128 + 1,
    )?;
    text.append(b"\n")
}

/// The word of a plan's quality.
fn quality_word(quality: &Quality) -> &'static [u8]
    ensures { result.now ≡ quality_word quality.now }
{
    match quality {
        Quality::Tight(_) => b"tight",
        Quality::Loose(_) => b"loose",
    }
}

/// Appends the end of a line, and the lines of a plan's raw value and quality.
fn put_raw(text: &mut Bytes, plan: &Plan) -> Result<(), NoMemory>
    ensures { OnOk result (text.new ≡ text.old ++ raw_lines plan.now) }
{
    put_counted(text, b"\nraw ", plan.raw_num)?;
    put_counted(text, b" ", plan.raw_den)?;
    text.append(b"\nquality ")?;
    text.append(quality_word(&plan.quality))?;
    text.append(b"\n")
}

/// The summary of a sample's plan.
fn summary_of(
    alloc: Global,
    seed: u64,
    nodes: u32,
    instance: &Instance,
    plan: &Plan,
) -> Result<Bytes, NoMemory>
    ensures { IfOk result (λ text. text ≡ summary seed nodes (case_of instance.now) plan.now) }
{
    let mut text = List::new(alloc);
    put_counted(&mut text, b"sample ", seed as u128)?;
    put_counted(&mut text, b" ", nodes as u128)?;
    text.append(b"\n")?;
    put_size(&mut text, instance)?;
    put_cost(&mut text, b"cost ", plan.cost)?;
    put_cost(&mut text, b"\nbound ", plan.bound)?;
    put_raw(&mut text, plan)?;
    Ok(text)
}

/// The answer with the summary of a plan.
fn summarized(
    alloc: Global,
    seed: u64,
    nodes: u32,
    instance: &Instance,
    planned: &PlannedReport,
) -> Result<Answer, NoMemory>
    requires { IsTranscript (case_of instance.now) instance.now.net.now.notes plan_commands (whole_report planned.now) }
    ensures status { IfOk result (λ a. a.status ≡ Status.Done) }
    ensures summary { IfOk result (λ a. IsSummary seed nodes (case_of instance.now) instance.now.net.now.notes a.text) }
{
    let text = summary_of(alloc, seed, nodes, instance, &planned.plan)?;
    Ok(Answer {
        status: Status::Done,
        text,
    })
}

/// The plan of an instance in which no state separates a demand. It may never return.
fn planned<R: Threads + Wait + Sync>(
    rt: &R,
    alloc: Global,
    instance: &Instance,
) -> Result<PlannedReport, NoMemory>
    requires survivable { IsSurvivable (case_of instance.now) }
    ensures { IfOk result (λ r. IsTranscript (case_of instance.now) instance.now.net.now.notes plan_commands (whole_report r)) }
{
    match plan_once(rt, alloc, instance, &OpenGate) {
        Ok(LonePlan::Planned(planned)) => Ok(planned),
        Ok(LonePlan::Separated { .. }) => unreachable!(),
        Err(NoMemory) => Err(NoMemory),
    }
}

/// The summary of the plan of a sample in which each link fails alone. Nobody is held, since it has one caller. It takes the time and the
/// memory of `plan_once`. It may never return, and fails only where memory runs out.
pub fn answer_sample<R: Threads + Wait + Sync>(
    rt: &R,
    alloc: Global,
    seed: u64,
    nodes: u32,
) -> Result<Answer, NoMemory>
    requires { (4 ≤ nodes) × (nodes ≤ 40) }
    ensures status { IfOk result (λ a. a.status ≡ Status.Done) }
    ensures summary { IfOk result (λ a. IsSummary seed nodes (sample_case seed nodes) no_notes a.text) }
{
    let (net, demands) = read_back(alloc, seed, nodes)?;
    let states = single_links(alloc, &net)?;
    let instance = Instance {
        net: &net,
        states: &states,
        demands: &demands,
    };
    let report = planned(rt, alloc, &instance)?;
    summarized(alloc, seed, nodes, &instance, &report)
}
