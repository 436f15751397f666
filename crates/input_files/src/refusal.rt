ghost use Rattle.std.specs.Prelude.{◌≡◌, ◌≢◌, ◌++◌, ◌∷◌, [], IfOk, MatchResult, OnOk, codes, decimal};
ghost use Rattle.input_files.{specs.Refusals.refusal_line, specs.inner.Steps.Says, specs.Stops.Stops};

use crate::stop::Stop;
use net_core::{Bytes, List, NoMemory};
use outside_io::{Answer, Status};
use std::alloc::Global;
use text_kit::FaultWord;
use text_kit::write::put_decimal;

/// A failure list is named beside a model without survivability.
#[derive(Clone, Copy)]
pub struct UnusedFailures;

impl FaultWord for UnusedFailures {
    ghost use Rattle.std.specs.Prelude.{codes};

    ghost word = { λ _. codes "unused" };

    fn put_word(&self, text: &mut Bytes) -> Result<(), NoMemory> {
        text.append(b"unused")
    }
}

/// The end of a run with this text, if there was memory for it.
fn told(status: Status, text: Result<Bytes, NoMemory>) -> Stop
    requires { status ≢ Status.ReadFault }
    ensures { MatchResult text (λ t. Stops (Says status t) result) (λ _. result ≡ Stop.NoMemory) }
{
    match text {
        Ok(text) => Stop::Told(Answer { status, text }),
        Err(NoMemory) => Stop::NoMemory,
    }
}

/// A line: its beginning, a name, and the end of the line.
fn name_line(alloc: Global, front: &[u8], name: &[u8]) -> Result<Bytes, NoMemory>
    ensures { IfOk result (λ text. text ≡ front.now ++ name.now ++ 10 ∷ []) }
{
    let mut text = List::new(alloc);
    text.append(front)?;
    text.append(name)?;
    text.append(b"\n")?;
    Ok(text)
}

/// The end of a run at a file that isn't there or is too long: a line of this beginning and the file's name.
pub fn not_fetched(alloc: Global, status: Status, front: &[u8], name: &str) -> Stop
    requires { status ≢ Status.ReadFault }
    ensures { Stops (Says status (front.now ++ name.now ++ 10 ∷ [])) result }
{
    told(status, name_line(alloc, front, name.as_bytes()))
}

/// Puts a place and the end of a line last.
fn put_place(text: &mut Bytes, at: u64) -> Result<(), NoMemory>
    ensures { OnOk result (text.new ≡ text.old ++ codes " at " ++ decimal at ++ 10 ∷ []) }
{
    text.append(b" at ")?;
    put_decimal(text, at as u128)?;
    text.append(b"\n")
}

/// The line of a refused file.
fn refusal_line<W: FaultWord>(
    alloc: Global,
    file: &[u8],
    kind: &W,
    at: u64,
) -> Result<Bytes, NoMemory>
    ensures { IfOk result (λ text. text ≡ refusal_line file.now (W.word kind.now) at) }
{
    let mut text = List::new(alloc);
    text.append(b"refused ")?;
    text.append(file)?;
    text.append(b" ")?;
    kind.put_word(&mut text)?;
    put_place(&mut text, at)?;
    Ok(text)
}

/// The end of a run at a refused file: its fault, and the place of the fault in bytes.
pub fn refused<W: FaultWord>(alloc: Global, status: Status, file: &[u8], kind: &W, at: u64) -> Stop
    requires { status ≢ Status.ReadFault }
    ensures { Stops (Says status (refusal_line file.now (W.word kind.now) at)) result }
{
    told(status, refusal_line(alloc, file, kind, at))
}
