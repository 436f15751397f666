ghost use Rattle.std.specs.Prelude.{◌≡◌, ◌≢◌, ◌≤◌, [], OnErr};
ghost use Rattle.outside_io.specs.Outside.{Puts, Rose};
ghost use Rattle.planner_commands.specs.Run.{PutsText};

use outside_io::{Failed, Sink, Status};

/// How many bytes are put at a time.
const PIECE: usize = 4096;

/// Puts a whole text in pieces of 4,096 bytes, of which the last may be shorter.
fn put_text<K: Sink>(out: &mut K, text: &[u8]) -> Result<(), Failed>
    ensures bytes { Puts (K.taken out.old) (K.taken out.new) result text.now }
    ensures later { K.faults out.old ≤ K.faults out.new }
    ensures failed { OnErr result (Rose (K.faults out.old) (K.faults out.new)) }
    ensures some { OnErr result (text.now ≢ []) }
{
    let mut at = 0;
    while at < text.len() {
        let end = text.len().min(at + PIECE);
        out.put(&text[at..end])?;
        at = end;
    }
    Ok(())
}

/// Writes a text, and gives the status, or `WriteFault` if writing failed.
pub fn say<K: Sink>(out: &mut K, text: &[u8], status: Status) -> Status
    ensures later { K.faults out.old ≤ K.faults out.new }
    ensures writes { PutsText K.taken K.faults status text.now result out.old out.new }
{
    match put_text(out, text) {
        Ok(()) => status,
        Err(_) => Status::WriteFault,
    }
}
