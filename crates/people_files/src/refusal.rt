ghost use Rattle.std.specs.Prelude.{◌≡◌, ◌≤◌, ◌++◌, ◌∷◌, [], IfOk, MatchResult, OnOk, length, min};
ghost use Rattle.fault_texts.specs.FaultTexts.{IsFaultText};
ghost use Rattle.input_files.specs.Refusals.{refusal_line, unused_line};
ghost use Rattle.people_files.{specs.Endings.Halts, specs.Messages.{ShowsPlace, unused_words}};

use crate::stop::{Halt, Told};
use fault_texts::{Sentence, put_fault};
use input_files::UnusedFailures;
use net_core::{Bytes, List, NoMemory};
use outside_io::Status;
use std::alloc::Global;
use text_kit::FaultWord;
use text_kit::write::put_decimal;

/// A file whose bytes are refused, and the place of their first fault.
#[derive(Clone, Copy)]
pub struct FaultyFile<'a> {
    pub status: Status,
    /// Which file it is, in a word.
    pub file: &'static [u8],
    pub name: &'a str,
    pub bytes: &'a [u8],
    pub at: u64,
}

/// The end of a run with this message, if there was memory for it. It takes constant time, and no memory.
pub fn told(status: Status, message: Result<Bytes, NoMemory>) -> Halt
    ensures { MatchResult message (λ m. Halts (λ s t. (s ≡ status) × (t ≡ m)) result) (λ _. result ≡ Halt.NoMemory) }
{
    match message {
        Ok(message) => Halt::Told(Told { status, message }),
        Err(NoMemory) => Halt::NoMemory,
    }
}

/// Puts a line last: its beginning, a word, and the place of the fault.
fn put_refusal<W: FaultWord>(
    text: &mut Bytes,
    file: &[u8],
    kind: &W,
    at: u64,
) -> Result<(), NoMemory>
    ensures { OnOk result (text.new ≡ text.old ++ refusal_line file.now (W.word kind.now) at) }
{
    text.append(b"refused ")?;
    text.append(file)?;
    text.append(b" ")?;
    kind.put_word(text)?;
    text.append(b" at ")?;
    put_decimal(text, at as u128)?;
    text.append(b"\n")
}

/// A place of a file, and its end where the place is beyond. It takes constant time, and no memory.
pub fn place_in(bytes: &[u8], at: u64) -> usize
    ensures value { result ≡ min at (length bytes.now) }
    ensures within { result ≤ length bytes.now }
{
    (at as usize).min(bytes.len())
}

/// What is said of a place of a file, without a line of the planner.
fn place_text(alloc: Global, refused: &FaultyFile, sentence: Sentence) -> Result<Bytes, NoMemory>
    ensures { IfOk result (IsFaultText refused.now.name.now refused.now.bytes.now (min refused.now.at (length refused.now.bytes.now))
        sentence.wrong.now sentence.help.now) }
{
    let mut text = List::new(alloc);
    let at = place_in(refused.bytes, refused.at);
    put_fault(
        &mut text,
        refused.name.as_bytes(),
        refused.bytes,
        at,
        sentence,
    )?;
    Ok(text)
}

/// What is said of a refused file: the place of its first fault, what is known besides, and last the planner's own line of it.
fn refused_text<W: FaultWord>(
    alloc: Global,
    refused: &FaultyFile,
    kind: &W,
    sentence: Sentence,
    notes: &[u8],
) -> Result<Bytes, NoMemory>
    ensures { IfOk result (ShowsPlace refused.now.name.now refused.now.bytes.now refused.now.at
        (sentence.wrong.now, sentence.help.now) notes.now (refusal_line refused.now.file.now (W.word kind.now) refused.now.at)) }
{
    let mut text = place_text(alloc, refused, sentence)?;
    text.append(notes)?;
    put_refusal(&mut text, refused.file, kind, refused.at)?;
    Ok(text)
}

/// The end of a run at a refused file, of which this is known besides the sentence of its first fault. It takes time in the bytes before the
/// fault, and memory for the message.
pub fn refused<W: FaultWord>(
    alloc: Global,
    file: &FaultyFile,
    kind: &W,
    sentence: Sentence,
    notes: &[u8],
) -> Halt
    ensures { Halts (λ s message. (s ≡ file.now.status) × ShowsPlace file.now.name.now file.now.bytes.now file.now.at
        (sentence.wrong.now, sentence.help.now) notes.now (refusal_line file.now.file.now (W.word kind.now) file.now.at) message) result }
{
    told(
        file.status,
        refused_text(alloc, file, kind, sentence, notes),
    )
}

/// What is said of a file that isn't fetched: its name and why, and then the planner's own line, which begins so.
fn unfetched_text(alloc: Global, name: &str, why: &[u8], front: &[u8]) -> Result<Bytes, NoMemory>
    ensures { IfOk result (λ text. text ≡ (name.now ++ why.now) ++ (front.now ++ name.now ++ 10 ∷ [])) }
{
    let mut text = List::new(alloc);
    text.append(name.as_bytes())?;
    text.append(why)?;
    text.append(front)?;
    text.append(name.as_bytes())?;
    text.append(b"\n")?;
    Ok(text)
}

/// The end of a run at a file that isn't there or is too long.
pub(crate) fn not_fetched(
    alloc: Global,
    status: Status,
    name: &str,
    why: &[u8],
    front: &[u8],
) -> Halt
    ensures { Halts (λ s message. (s ≡ status) × (message ≡ (name.now ++ why.now) ++ (front.now ++ name.now ++ 10 ∷ []))) result }
{
    told(status, unfetched_text(alloc, name, why, front))
}

/// What is said of a file of which reading failed.
fn unread_text(alloc: Global, name: &str, why: &[u8]) -> Result<Bytes, NoMemory>
    ensures { IfOk result (λ text. text ≡ name.now ++ why.now) }
{
    let mut text = List::new(alloc);
    text.append(name.as_bytes())?;
    text.append(why)?;
    Ok(text)
}

/// The end of a run at a file of which reading failed.
pub(crate) fn unread(alloc: Global, name: &str, why: &[u8]) -> Halt
    ensures { Halts (λ s message. (s ≡ Status.ReadFault) × (message ≡ name.now ++ why.now)) result }
{
    told(Status::ReadFault, unread_text(alloc, name, why))
}

const UNUSED: &[u8] = b": the model asks for no survivability, so this list isn't used\n";

const ADVICE: &[u8] =
    b"  leave it out, or give the model SURVIVABILITY_MODEL = UNRESTRICTED_FLOW_RECONFIGURATION\n";

/// What is said of a failure list beside a model without survivability, and last the planner's own line of it.
fn unused_text(alloc: Global, name: &str) -> Result<Bytes, NoMemory>
    ensures { IfOk result (λ text. text ≡ unused_words name.now ++ unused_line) }
{
    let mut text = List::new(alloc);
    text.append(name.as_bytes())?;
    text.append(UNUSED)?;
    text.append(ADVICE)?;
    put_refusal(&mut text, b"failures", &UnusedFailures, 0)?;
    Ok(text)
}

/// The end of a run at a failure list beside a model without survivability.
pub(crate) fn unused(alloc: Global, name: &str) -> Halt
    ensures { Halts (λ s message. (s ≡ Status.BadFailures) × (message ≡ unused_words name.now ++ unused_line)) result }
{
    told(Status::BadFailures, unused_text(alloc, name))
}
