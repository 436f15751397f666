ghost use Rattle.std.specs.Prelude.{◌≡◌, ◌≢◌, List, [], Err, IfErr, IfOk, IsErrOf, length, true, false};
ghost use Rattle.plan_terms.specs.Terms.{AreDemands};
ghost use Rattle.outside_io.specs.Outside.{Fetches};
ghost use Rattle.model_reader.specs.Failures as failures;
ghost use Rattle.model_reader.specs.Models as models;
ghost use Rattle.input_files.{specs.InputWords.default, specs.Inputs.{Fetched, HasInputs, HasModel, HasStates, RefusesFailureFile, RefusesModelFile, RefusesNetworkFile, SpellsNetwork, StopsAtFailures, StopsAtFetch, StopsAtFile, StopsAtInputs, input_limit}, specs.Shelves.KeepsShelf, specs.Stops.{Stops, named}};

use crate::refusal::{UnusedFailures, not_fetched, refused};
use crate::stop::Stop;
use crate::words::{DEFAULT, PlanFiles};
use model_reader::{
    FailuresRefusal, Model, ModelRefusal, only_none, read_failures, read_model, single_links,
};
use net_core::{Bytes, Demands, List, Network, NoMemory, Problem, States};
use outside_io::{Fetch, Shelf, Status};
use sndlib_reader::{ReadRefusal, read_network};
use std::alloc::Global;

/// How many bytes an input file may have.
pub const INPUT_LIMIT: u64 = 1 << 24;

/// The content of a file of at most `limit` bytes.
pub fn fetch_file<S: Shelf>(
    alloc: Global,
    limit: u64,
    name: &str,
    shelf: &mut S,
) -> Result<Bytes, Stop>
    ensures found { IfOk result (λ bytes. Fetches (S.files shelf.old) name.now limit Fetch.Found bytes) }
    ensures ends { IfErr result (Stops (StopsAtFetch (S.files shelf.old) limit name.now)) }
    ensures shelf { KeepsShelf S.files S.faults (IsErrOf result Stop.ReadFault) shelf.old shelf.new }
{
    let mut bytes = List::new(alloc);
    match shelf.fetch(name, limit, &mut bytes) {
        Fetch::Found => Ok(bytes),
        Fetch::Missing => Err(not_fetched(alloc, Status::NoFile, b"no file ", name)),
        Fetch::TooLong => Err(not_fetched(alloc, Status::TooLong, b"too long ", name)),
        Fetch::Failed(_) => Err(Stop::ReadFault),
        Fetch::NoMemory => Err(Stop::NoMemory),
    }
}

/// The network and the demands that bytes spell.
fn network_of(alloc: Global, bytes: &[u8]) -> Result<(Network, Demands), Stop>
    ensures spelled { IfOk result (SpellsNetwork bytes.now) }
    ensures belong { IfOk result (λ r. AreDemands (length r.0.nodes) r.1) }
    ensures refused { IfErr result (Stops (λ s text. (s ≡ Status.BadNetwork) × RefusesNetworkFile bytes.now text)) }
{
    match read_network(alloc, bytes) {
        Ok(read) => Ok(read),
        Err(ReadRefusal::Bad { at, kind }) => {
            Err(refused(alloc, Status::BadNetwork, b"network", &kind, at))
        }
        Err(ReadRefusal::NoMemory) => Err(Stop::NoMemory),
    }
}

/// The model that bytes spell.
fn model_of(alloc: Global, bytes: &[u8]) -> Result<Model, Stop>
    ensures spelled { IfOk result (models.SpellsModel bytes.now) }
    ensures refused { IfErr result (Stops (λ s text. (s ≡ Status.BadModel) × RefusesModelFile bytes.now text)) }
{
    match read_model(alloc, bytes) {
        Ok(model) => Ok(model),
        Err(ModelRefusal::Bad { at, kind }) => {
            Err(refused(alloc, Status::BadModel, b"model", &kind, at))
        }
        Err(ModelRefusal::NoMemory) => Err(Stop::NoMemory),
    }
}

/// The states that bytes spell.
fn states_of(alloc: Global, net: &Network, bytes: &[u8]) -> Result<States, Stop>
    ensures spelled { IfOk result (λ r. failures.SpellsFailures net.now.links bytes.now r.listed) }
    ensures refused { IfErr result (Stops (λ s text. (s ≡ Status.BadFailures) × RefusesFailureFile net.now.links bytes.now text)) }
{
    match read_failures(alloc, net, bytes) {
        Ok(states) => Ok(states),
        Err(FailuresRefusal::Bad { at, kind }) => {
            Err(refused(alloc, Status::BadFailures, b"failures", &kind, at))
        }
        Err(FailuresRefusal::NoMemory) => Err(Stop::NoMemory),
    }
}

/// The network and the demands of the first file.
fn load_network<S: Shelf>(
    alloc: Global,
    files: &PlanFiles,
    shelf: &mut S,
) -> Result<(Network, Demands), Stop>
    ensures has { IfOk result (Fetched (S.files shelf.old) input_limit files.now.network.now SpellsNetwork) }
    ensures belong { IfOk result (λ r. AreDemands (length r.0.nodes) r.1) }
    ensures ends { IfErr result (Stops (StopsAtFile (S.files shelf.old) input_limit files.now.network.now Status.BadNetwork RefusesNetworkFile)) }
    ensures shelf { KeepsShelf S.files S.faults (IsErrOf result Stop.ReadFault) shelf.old shelf.new }
{
    let bytes = fetch_file(alloc, INPUT_LIMIT, files.network, shelf)?;
    network_of(alloc, bytes.items())
}

/// The model. Without a file, a failure file asks for reconfiguration, and no setup is charged.
fn load_model<S: Shelf>(alloc: Global, files: &PlanFiles, shelf: &mut S) -> Result<Model, Stop>
    ensures has { IfOk result (HasModel (S.files shelf.old) (named files.now)) }
    ensures ends { IfErr result (Stops (λ s text. (files.now.model.now ≢ default)
        × StopsAtFile (S.files shelf.old) input_limit files.now.model.now Status.BadModel RefusesModelFile s text)) }
    ensures shelf { KeepsShelf S.files S.faults (IsErrOf result Stop.ReadFault) shelf.old shelf.new }
{
    if files.model == DEFAULT {
        return Ok(Model {
            reconfigure: files.failures != DEFAULT,
            charge: false,
        });
    }
    let bytes = fetch_file(alloc, INPUT_LIMIT, files.model, shelf)?;
    model_of(alloc, bytes.items())
}

/// The states without a failure file: every single-link failure with reconfiguration, and none without. It takes
/// time and memory in the links.
pub fn default_states(alloc: Global, net: &Network, reconfigure: bool) -> Result<States, NoMemory>
    ensures single { reconfigure ≡ true → IfOk result (λ r. r.listed ≡ failures.single_states net.now.links) }
    ensures none { reconfigure ≡ false → IfOk result (λ r. r.listed ≡ []) }
{
    if reconfigure {
        single_links(alloc, net)
    } else {
        Ok(only_none(alloc))
    }
}

/// The states that a failure file lists.
fn load_failures<S: Shelf>(
    alloc: Global,
    files: &PlanFiles,
    net: &Network,
    shelf: &mut S,
) -> Result<States, Stop>
    ensures has { IfOk result (λ r. Fetched (S.files shelf.old) input_limit files.now.failures.now (failures.SpellsFailures net.now.links) r.listed) }
    ensures ends { IfErr result (Stops (StopsAtFile (S.files shelf.old) input_limit files.now.failures.now Status.BadFailures
        (RefusesFailureFile net.now.links))) }
    ensures shelf { KeepsShelf S.files S.faults (IsErrOf result Stop.ReadFault) shelf.old shelf.new }
{
    let bytes = fetch_file(alloc, INPUT_LIMIT, files.failures, shelf)?;
    states_of(alloc, net, bytes.items())
}

/// The listed states. A failure file beside a model without survivability isn't fetched.
fn load_states<S: Shelf>(
    alloc: Global,
    files: &PlanFiles,
    net: &Network,
    reconfigure: bool,
    shelf: &mut S,
) -> Result<States, Stop>
    ensures has { IfOk result (λ r. HasStates (S.files shelf.old) (named files.now) net.now.links reconfigure r.listed) }
    ensures ends { IfErr result (Stops (StopsAtFailures (S.files shelf.old) (named files.now) net.now.links reconfigure)) }
    ensures shelf { KeepsShelf S.files S.faults (IsErrOf result Stop.ReadFault) shelf.old shelf.new }
{
    if files.failures == DEFAULT {
        return Ok(default_states(alloc, net, reconfigure)?);
    }
    if !reconfigure {
        return Err(refused(alloc, Status::BadFailures, b"failures", &UnusedFailures, 0));
    }
    load_failures(alloc, files, net, shelf)
}

/// What the files of a planning spell, with the setup costs of the network's links charged or dropped as the model says. They are
/// read one after another, and the first that is not read ends the run. It takes the time and the memory of their readers, and
/// memory for the bytes of one file at a time.
pub fn load_problem<S: Shelf>(
    alloc: Global,
    files: &PlanFiles,
    shelf: &mut S,
) -> Result<Problem, Stop>
    ensures has { IfOk result (λ p. HasInputs (S.files shelf.old) (named files.now) p.net p.demands p.states.listed) }
    ensures ends { IfErr result (Stops (StopsAtInputs (S.files shelf.old) (named files.now))) }
    ensures shelf { KeepsShelf S.files S.faults (IsErrOf result Stop.ReadFault) shelf.old shelf.new }
{
    let (net, demands) = load_network(alloc, files, shelf)?;
    let model = load_model(alloc, files, shelf)?;
    let states = load_states(alloc, files, &net, model.reconfigure, shelf)?;
    Ok(Problem {
        net: net.settle(model.charge),
        states,
        demands,
    })
}
