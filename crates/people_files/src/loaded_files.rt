ghost use Rattle.std.specs.Prelude.{◌≡◌, ◌≢◌, IfErr, IfOk, length};
ghost use Rattle.plan_terms.specs.Terms.{AreDemands};
ghost use Rattle.outside_io.specs.Outside.{Fetches};
ghost use Rattle.input_files.specs.Terms.{Fetched, SpellsNetwork, input_limit, report_limit, KeepsShelf};
ghost use Rattle.people_files.{specs.Endings.{FailsReading, Halts, halt_status}, specs.Messages.{FailsAtFetch, FailsAtFile, ShowsNetworkFault}};
ghost use Rattle.people_files.specs.Messages as words;

use crate::refusal::{FaultyFile, not_fetched, place_in, refused, unread};
use crate::stop::Halt;
use fault_messages::{network_notes, network_sentence};
use input_files::{INPUT_LIMIT, REPORT_LIMIT};
use net_core::{Bytes, Demands, List as Items, Network};
use node_places::{Place, node_places};
use outside_io::{Fetch, ReadFault, Shelf, Status};
use sndlib_reader::{ReadRefusal, read_network};
use std::alloc::Global;

const MISSING: &[u8] = b": there is no such file\n";

const TOO_LONG: &[u8] =
    b": the file is too long; a report has at most 256 MiB, and any other file 16 MiB\n";

/// What is said of a file that can't be read.
fn fault_words(fault: ReadFault) -> &'static [u8]
    ensures { result.now ≡ words.fault_words fault }
{
    match fault {
        ReadFault::Folder => b": it is a folder, not a file\n",
        ReadFault::NoRight => b": there is no right to read it\n",
        ReadFault::Other => b": reading failed; the disk may be damaged\n",
    }
}

/// The content of a file of at most this number of bytes.
pub(crate) fn fetch_file<S: Shelf>(
    alloc: Global,
    limit: u64,
    name: &str,
    shelf: &mut S,
) -> Result<Bytes, Halt>
    ensures found { IfOk result (λ bytes. Fetches (S.files shelf.old) name.now limit Fetch.Found bytes) }
    ensures ends { IfErr result (Halts (FailsAtFetch (S.files shelf.old) limit name.now)) }
    ensures shelf { KeepsShelf S.files S.faults (FailsReading result) shelf.old shelf.new }
{
    let mut bytes = Items::new(alloc);
    match shelf.fetch(name, limit, &mut bytes) {
        Fetch::Found => Ok(bytes),
        Fetch::Missing => Err(not_fetched(alloc, Status::NoFile, name, MISSING, b"no file ")),
        Fetch::TooLong => Err(not_fetched(alloc, Status::TooLong, name, TOO_LONG, b"too long ")),
        Fetch::Failed(fault) => Err(unread(alloc, name, fault_words(fault))),
        Fetch::NoMemory => Err(Halt::NoMemory),
    }
}

/// The content of a report's file, of at most 256 MiB. It takes time and memory in the file.
pub fn fetch_report<S: Shelf>(alloc: Global, name: &str, shelf: &mut S) -> Result<Bytes, Halt>
    ensures found { IfOk result (λ bytes. Fetches (S.files shelf.old) name.now report_limit Fetch.Found bytes) }
    ensures ends { IfErr result (Halts (FailsAtFetch (S.files shelf.old) report_limit name.now)) }
    ensures shelf { KeepsShelf S.files S.faults (FailsReading result) shelf.old shelf.new }
{
    fetch_file(alloc, REPORT_LIMIT, name, shelf)
}

/// The network and the demands that bytes spell.
fn network_of(alloc: Global, name: &str, bytes: &[u8]) -> Result<(Network, Demands), Halt>
    ensures spelled { IfOk result (SpellsNetwork bytes.now) }
    ensures belong { IfOk result (λ r. AreDemands (length r.0.nodes) r.1) }
    ensures refused { IfErr result (Halts (λ s message. (s ≡ Status.BadNetwork) × ShowsNetworkFault name.now bytes.now message)) }
    ensures was_read { IfErr result (λ h. halt_status h ≢ Status.ReadFault) }
{
    match read_network(alloc, bytes) {
        Ok(read) => Ok(read),
        Err(ReadRefusal::Bad { at, kind }) => {
            let notes = network_notes(alloc, bytes, place_in(bytes, at), kind)?;
            let file = FaultyFile {
                status: Status::BadNetwork,
                file: b"network",
                name,
                bytes,
                at,
            };
            Err(refused(alloc, &file, &kind, network_sentence(kind), notes.items()))
        }
        Err(ReadRefusal::NoMemory) => Err(Halt::NoMemory),
    }
}

/// The network and the demands of a file. It takes the time and the memory of `read_network`, and a file may have 16 MiB.
pub fn load_network<S: Shelf>(
    alloc: Global,
    name: &str,
    shelf: &mut S,
) -> Result<(Network, Demands), Halt>
    ensures has { IfOk result (Fetched (S.files shelf.old) input_limit name.now SpellsNetwork) }
    ensures belong { IfOk result (λ r. AreDemands (length r.0.nodes) r.1) }
    ensures ends { IfErr result (Halts (FailsAtFile (S.files shelf.old) input_limit name.now Status.BadNetwork (ShowsNetworkFault name.now))) }
    ensures shelf { KeepsShelf S.files S.faults (FailsReading result) shelf.old shelf.new }
{
    let bytes = fetch_file(alloc, INPUT_LIMIT, name, shelf)?;
    network_of(alloc, name, bytes.items())
}

/// The network and the demands of a file, and where the nodes are, as far as it says. It takes the time of both readers.
pub(crate) fn load_placed_network<S: Shelf>(
    alloc: Global,
    name: &str,
    shelf: &mut S,
) -> Result<(Network, Demands, Items<Option<Place>>), Halt>
    ensures has { IfOk result (λ r. Fetched (S.files shelf.old) input_limit name.now SpellsNetwork (r.0, r.1)) }
    ensures ends { IfErr result (Halts (FailsAtFile (S.files shelf.old) input_limit name.now Status.BadNetwork (ShowsNetworkFault name.now))) }
    ensures shelf { KeepsShelf S.files S.faults (FailsReading result) shelf.old shelf.new }
{
    let bytes = fetch_file(alloc, INPUT_LIMIT, name, shelf)?;
    let (net, demands) = network_of(alloc, name, bytes.items())?;
    let places = node_places(alloc, bytes.items())?;
    Ok((net, demands, places))
}
