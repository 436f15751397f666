ghost use Rattle.std.specs.Prelude.{◌≡◌, ◌≢◌, IfErr, IfOk};
ghost use Rattle.model_reader.specs.Terms.{SpellsFailures, SpellsModel};
ghost use Rattle.input_files.specs.Terms.{default, Fetched, HasModel, SpellsNetwork, input_limit, KeepsShelf, named};
ghost use Rattle.people_files.{specs.Endings.{FailsReading, Halts, halt_status}, specs.CaseInputs.{FailsAtFailures, FailsAtInputs, HasCase, HasListed, named_case}, specs.Messages.{FailsAtFile, ShowsFailuresFault, ShowsModelFault}};

use crate::loaded_files::{fetch_file, load_network, load_placed_network};
use crate::refusal::{FaultyFile, place_in, refused, unused};
use crate::stop::Halt;
use crate::words::CaseFiles;
use fault_messages::{failures_notes, failures_sentence, model_notes, model_sentence};
use input_files::{DEFAULT, INPUT_LIMIT, PlanFiles, default_states};
use model_reader::{FailuresRefusal, Model, ModelRefusal, read_failures, read_model, single_links};
use net_core::{Demands, List, Network, Problem, States};
use node_places::Place;
use outside_io::{Shelf, Status};
use std::alloc::Global;

/// The model that bytes spell.
fn model_of(alloc: Global, name: &str, bytes: &[u8]) -> Result<Model, Halt>
    ensures spelled { IfOk result (SpellsModel bytes.now) }
    ensures refused { IfErr result (Halts (λ s message. (s ≡ Status.BadModel) × ShowsModelFault name.now bytes.now message)) }
    ensures was_read { IfErr result (λ h. halt_status h ≢ Status.ReadFault) }
{
    match read_model(alloc, bytes) {
        Ok(model) => Ok(model),
        Err(ModelRefusal::Bad { at, kind }) => {
            let notes = model_notes(alloc, bytes, place_in(bytes, at), kind)?;
            let file = FaultyFile {
                status: Status::BadModel,
                file: b"model",
                name,
                bytes,
                at,
            };
            Err(refused(alloc, &file, &kind, model_sentence(kind), notes.items()))
        }
        Err(ModelRefusal::NoMemory) => Err(Halt::NoMemory),
    }
}

/// The states that bytes spell.
fn states_of(alloc: Global, net: &Network, name: &str, bytes: &[u8]) -> Result<States, Halt>
    ensures spelled { IfOk result (λ r. SpellsFailures net.now.links bytes.now r.listed) }
    ensures refused { IfErr result (Halts (λ s message. (s ≡ Status.BadFailures) × ShowsFailuresFault net.now.links name.now bytes.now message)) }
    ensures was_read { IfErr result (λ h. halt_status h ≢ Status.ReadFault) }
{
    match read_failures(alloc, net, bytes) {
        Ok(states) => Ok(states),
        Err(FailuresRefusal::Bad { at, kind }) => {
            let notes = failures_notes(
                alloc,
                net.links().items(),
                bytes,
                place_in(bytes, at),
                kind,
            )?;
            let file = FaultyFile {
                status: Status::BadFailures,
                file: b"failures",
                name,
                bytes,
                at,
            };
            Err(refused(alloc, &file, &kind, failures_sentence(kind), notes.items()))
        }
        Err(FailuresRefusal::NoMemory) => Err(Halt::NoMemory),
    }
}

/// The model. Without a file, a failure list asks for reconfiguration, and no setup is charged.
fn load_model<S: Shelf>(alloc: Global, files: &PlanFiles, shelf: &mut S) -> Result<Model, Halt>
    ensures has { IfOk result (HasModel (S.files shelf.old) (named files.now)) }
    ensures ends { IfErr result (Halts (λ s message. (files.now.model.now ≢ default)
        × FailsAtFile (S.files shelf.old) input_limit files.now.model.now Status.BadModel (ShowsModelFault files.now.model.now) s message)) }
    ensures shelf { KeepsShelf S.files S.faults (FailsReading result) shelf.old shelf.new }
{
    if files.model == DEFAULT {
        return Ok(Model {
            reconfigure: files.failures != DEFAULT,
            charge: false,
        });
    }
    let bytes = fetch_file(alloc, INPUT_LIMIT, files.model, shelf)?;
    model_of(alloc, files.model, bytes.items())
}

/// The states that a failure list names.
fn load_failures<S: Shelf>(
    alloc: Global,
    name: &str,
    net: &Network,
    shelf: &mut S,
) -> Result<States, Halt>
    ensures has { IfOk result (λ r. Fetched (S.files shelf.old) input_limit name.now (SpellsFailures net.now.links) r.listed) }
    ensures ends { IfErr result (Halts (FailsAtFile (S.files shelf.old) input_limit name.now Status.BadFailures
        (ShowsFailuresFault net.now.links name.now))) }
    ensures shelf { KeepsShelf S.files S.faults (FailsReading result) shelf.old shelf.new }
{
    let bytes = fetch_file(alloc, INPUT_LIMIT, name, shelf)?;
    states_of(alloc, net, name, bytes.items())
}

/// The listed states. A failure list beside a model without survivability isn't fetched.
fn load_states<S: Shelf>(
    alloc: Global,
    words: &CaseFiles,
    net: &Network,
    reconfigure: bool,
    shelf: &mut S,
) -> Result<States, Halt>
    ensures has { IfOk result (λ r. HasListed (S.files shelf.old) (named_case words.now) net.now.links reconfigure r.listed) }
    ensures ends { IfErr result (Halts (FailsAtFailures (S.files shelf.old) (named_case words.now) net.now.links reconfigure)) }
    ensures shelf { KeepsShelf S.files S.faults (FailsReading result) shelf.old shelf.new }
{
    let name = words.files.failures;
    if words.survive {
        return Ok(single_links(alloc, net)?);
    }
    if name == DEFAULT {
        return Ok(default_states(alloc, net, reconfigure)?);
    }
    if !reconfigure {
        return Err(unused(alloc, name));
    }
    load_failures(alloc, name, net, shelf)
}

/// What the files spell of which the network's is read, with the setup costs of its links charged or dropped as the model says.
fn settled_case<S: Shelf>(
    alloc: Global,
    words: &CaseFiles,
    net: Network,
    demands: Demands,
    shelf: &mut S,
) -> Result<Problem, Halt>
    requires { Fetched (S.files shelf.old) input_limit words.now.files.network.now SpellsNetwork (net, demands) }
    ensures has { IfOk result (λ p. HasCase (S.files shelf.old) (named_case words.now) p.net p.demands p.states.listed) }
    ensures ends { IfErr result (Halts (FailsAtInputs (S.files shelf.old) (named_case words.now))) }
    ensures shelf { KeepsShelf S.files S.faults (FailsReading result) shelf.old shelf.new }
{
    let model = load_model(alloc, &words.files, shelf)?;
    let states = load_states(alloc, words, &net, model.reconfigure, shelf)?;
    Ok(Problem {
        net: net.settle(model.charge),
        states,
        demands,
    })
}

/// What the files spell, with the setup costs of the network's links charged or dropped as the model says. They are read one after another,
/// and the first that isn't read ends the run. It takes the time and the memory of the readers, and a file may have 16 MiB.
pub fn load_case<S: Shelf>(alloc: Global, words: &CaseFiles, shelf: &mut S) -> Result<Problem, Halt>
    ensures has { IfOk result (λ p. HasCase (S.files shelf.old) (named_case words.now) p.net p.demands p.states.listed) }
    ensures ends { IfErr result (Halts (FailsAtInputs (S.files shelf.old) (named_case words.now))) }
    ensures shelf { KeepsShelf S.files S.faults (FailsReading result) shelf.old shelf.new }
{
    let (net, demands) = load_network(alloc, words.files.network, shelf)?;
    settled_case(alloc, words, net, demands, shelf)
}

/// What the files spell, as `load_case` says, and where the nodes are, as far as the network's file says. It reads the network's file a second
/// time for that.
pub fn load_placed_case<S: Shelf>(
    alloc: Global,
    words: &CaseFiles,
    shelf: &mut S,
) -> Result<(Problem, List<Option<Place>>), Halt>
    ensures has { IfOk result (λ r. HasCase (S.files shelf.old) (named_case words.now) r.0.net r.0.demands r.0.states.listed) }
    ensures ends { IfErr result (Halts (FailsAtInputs (S.files shelf.old) (named_case words.now))) }
    ensures shelf { KeepsShelf S.files S.faults (FailsReading result) shelf.old shelf.new }
{
    let (net, demands, places) = load_placed_network(alloc, words.files.network, shelf)?;
    let problem = settled_case(alloc, words, net, demands, shelf)?;
    Ok((problem, places))
}
