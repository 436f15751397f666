ghost use Rattle.std.specs.Prelude.{◌≡◌, ◌++◌, ◌∷◌, [], IfOk, OnOk};
ghost use Rattle.plan_terms.specs.Terms.{case, case_of};
ghost use Rattle.plan_report.specs.Terms.{known_of};
ghost use Rattle.flow_file.{specs.FlowFiles.IsFlowFile, specs.declared.flow.FlowFile.{FlowFile as File}};
ghost use Rattle.proof_report.specs.Terms.{whole_report};
ghost use Rattle.plan_reports.specs.ImportedPlans.{HasImportFault, IsImportEnding, IsImportedReport};
ghost use Rattle.check_answers.specs.Findings.{spaced};
ghost use Rattle.command_answers.{specs.ImportFaults.{import_fault_line, import_fault_words}, specs.Answers.EndsImported};

use crate::plan::{planned, separated};
use check_answers::put_word;
use flow_file::FlowFile;
use flow_import::ImportFault;
use net_core::{Bytes, Instance, List, NoMemory, Problem};
use outside_io::{Answer, Gate, Status};
use plan_report::{demand_name, link_name, node_name, state_name};
use plan_reports::{ImportEnding, PlannedReport, import_plan};
use std::alloc::Global;
use std::sync::Wait;
use std::thread::Threads;

/// Appends a word and two names.
fn put_names(text: &mut Bytes, word: &[u8], first: &[u8], second: &[u8]) -> Result<(), NoMemory>
    ensures { OnOk result (text.new ≡ text.old ++ spaced (word.now ∷ first.now ∷ second.now ∷ [])) }
{
    put_word(text, word)?;
    put_word(text, first)?;
    put_word(text, second)
}

/// Appends a word and three names.
fn put_three_names(
    text: &mut Bytes,
    word: &[u8],
    first: &[u8],
    second: &[u8],
    third: &[u8],
) -> Result<(), NoMemory>
    ensures { OnOk result (text.new ≡ text.old ++ spaced (word.now ∷ first.now ∷ second.now ∷ third.now ∷ [])) }
{
    put_names(text, word, first, second)?;
    put_word(text, third)
}

/// Appends the words of a fault.
fn put_fault(text: &mut Bytes, instance: &Instance, fault: ImportFault) -> Result<(), NoMemory>
    ensures { OnOk result (text.new ≡ text.old ++ spaced (import_fault_words (case_of instance.now) fault)) }
{
    let links = instance.net.links().items();
    let listed = instance.states.listed().items();
    match fault {
        ImportFault::Dead(s, e) => {
            put_names(text, b"dead", state_name(listed, s), link_name(links, e))
        }
        ImportFault::Unbalanced(s, k, n) => put_three_names(
            text,
            b"unbalanced",
            state_name(listed, s),
            demand_name(instance.demands.items(), k),
            node_name(instance.net.nodes().items(), n),
        ),
        ImportFault::Overloaded(s, e) => put_names(
            text,
            b"overloaded",
            state_name(listed, s),
            link_name(links, e),
        ),
        ImportFault::NoMemory => Ok(()),
    }
}

/// The line of a fault.
fn fault_line(alloc: Global, instance: &Instance, fault: ImportFault) -> Result<Bytes, NoMemory>
    ensures { IfOk result (λ text. text ≡ import_fault_line (case_of instance.now) fault) }
{
    let mut text = List::new(alloc);
    text.append(b"rejected import")?;
    put_fault(&mut text, instance, fault)?;
    text.append(b"\n")?;
    Ok(text)
}

/// The answer to flows with a fault.
fn answer_fault(alloc: Global, instance: &Instance, fault: ImportFault) -> Result<Answer, NoMemory>
    ensures { IfOk result (λ a. (file : File) → HasImportFault (case_of instance.now) instance.now.net.now.notes file fault
        → EndsImported (case_of instance.now) instance.now.net.now.notes file a.status a.text) }
{
    Ok(Answer {
        status: Status::BadImport,
        text: fault_line(alloc, instance, fault)?,
    })
}

/// The answer with a plan that has an imported design.
fn answer_imported(
    alloc: Global,
    instance: &Instance,
    report: PlannedReport,
) -> Result<Answer, NoMemory>
    requires { (file : File) × IsImportedReport (case_of instance.now) instance.now.net.now.notes file (whole_report report) }
    ensures { IfOk result (λ a. (file : File)
        → IsImportedReport (case_of instance.now) instance.now.net.now.notes file (whole_report report)
        → EndsImported (case_of instance.now) instance.now.net.now.notes file a.status a.text) }
{
    planned(alloc, instance.net, instance.states, report)
}

/// The answer to the result of an import.
fn answer_ending(
    alloc: Global,
    instance: &Instance,
    ending: ImportEnding,
) -> Result<Answer, NoMemory>
    requires { (file : File) × IsImportEnding (case_of instance.now) instance.now.net.now.notes file ending }
    ensures { IfOk result (λ a. (file : File) → IsImportEnding (case_of instance.now) instance.now.net.now.notes file ending
        → EndsImported (case_of instance.now) instance.now.net.now.notes file a.status a.text) }
{
    match ending {
        ImportEnding::Imported(report) => answer_imported(alloc, instance, report),
        ImportEnding::Faulty(fault) => answer_fault(alloc, instance, fault),
        ImportEnding::Separated { state, demand } => separated(alloc, instance, state, &demand),
    }
}

/// The answer to an import into an instance: the report of a plan with the file's design, or the line of the file's first fault or of the
/// first demand that a state separates. It may never return.
fn answer_instance<R: Threads + Wait + Sync, G: Gate + Sync>(
    rt: &R,
    alloc: Global,
    instance: &Instance,
    file: FlowFile,
    gate: &G,
) -> Result<Answer, NoMemory>
    requires { IsFlowFile (known_of instance.now.net.now instance.now.states.now) instance.now.demands.now file }
    ensures { IfOk result (λ a. EndsImported (case_of instance.now) instance.now.net.now.notes file a.status a.text) }
{
    let ending = import_plan(rt, alloc, instance, file, gate)?;
    answer_ending(alloc, instance, ending)
}

/// The answer to an import into a problem. It takes the time and the memory of `import_plan`, and those of the report's text. It may never
/// return, and fails only where memory runs out.
pub fn answer_import<R: Threads + Wait + Sync, G: Gate + Sync>(
    rt: &R,
    alloc: Global,
    problem: Problem,
    file: FlowFile,
    gate: &G,
) -> Result<Answer, NoMemory>
    requires { IsFlowFile (known_of problem.net problem.states) problem.demands file }
    ensures { IfOk result (λ a. EndsImported (case problem.net problem.states problem.demands) problem.net.notes file a.status a.text) }
{
    let instance = Instance {
        net: &problem.net,
        states: &problem.states,
        demands: &problem.demands,
    };
    answer_instance(rt, alloc, &instance, file, gate)
}
