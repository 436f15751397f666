ghost use Rattle.std.specs.Prelude.{◌≡◌, ◌≤◌, [], MatchResult, Ok, Err};
ghost use Rattle.outside_io.specs.declared.status.Status.{Status};
ghost use Rattle.people_commands.specs.Endings.{PutsBoth, TellsBeside};

use crate::usage::write_message;
use net_core::{Bytes, List};
use outside_io::{Sink, Status};
use people_files::Halt;
use std::alloc::Global;

/// What a run prints, and the message that it writes to standard error.
#[derive(Drop)]
pub(crate) struct Printed {
    pub(crate) text: Bytes,
    pub(crate) message: Bytes,
}

/// A text without a message, or the end of a run with a message.
pub(crate) fn alone(alloc: Global, text: Result<Bytes, Halt>) -> Result<Printed, Halt>
    ensures { MatchResult text (λ t. result ≡ Ok (record { text = t; message = [] })) (λ h. result ≡ Err h) }
{
    match text {
        Ok(text) => Ok(Printed {
            text,
            message: List::new(alloc),
        }),
        Err(halt) => Err(halt),
    }
}

/// Writes a message to standard error. If that fails, there is nowhere left to say so.
pub(crate) fn tell<E: Sink>(beside: &mut E, message: &[u8])
    ensures later { E.faults beside.old ≤ E.faults beside.new }
    ensures tells { TellsBeside E.taken E.faults message.now beside.old beside.new }
{
    match beside.put(message) {
        Ok(()) => (),
        Err(_) => (),
    }
}

/// Writes a message to standard error, if there is one.
#[tactic(auto, using(crate::proofs::Nothing::takes_nothing))]
fn tell_some<E: Sink>(beside: &mut E, message: &[u8])
    ensures later { E.faults beside.old ≤ E.faults beside.new }
    ensures tells { TellsBeside E.taken E.faults message.now beside.old beside.new }
{
    if !message.is_empty() {
        tell(beside, message);
    }
}

/// Prints a text, and then the message. Gives `Done`, or `WriteFault` if the text couldn't be written; then the message is about that.
pub(crate) fn say<K: Sink, E: Sink>(
    out: &mut K,
    beside: &mut E,
    text: &[u8],
    message: &[u8],
) -> Status
    ensures later { K.faults out.old ≤ K.faults out.new }
    ensures beside { E.faults beside.old ≤ E.faults beside.new }
    ensures says { PutsBoth K.taken K.faults E.taken E.faults Status.Done text.now message.now result out.old out.new beside.old beside.new }
{
    match out.put(text) {
        Ok(()) => {
            tell_some(beside, message);
            Status::Done
        }
        Err(fault) => {
            tell(beside, write_message(fault));
            Status::WriteFault
        }
    }
}
