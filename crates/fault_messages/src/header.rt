ghost use Rattle.std.{specs.Prelude.{◌≡◌, ◌++◌, ℕ, List, true, nat_eq, MatchOption, OnOk}, specs.List.starts_with};
ghost use Rattle.fault_messages.specs.Headers.{HasNoGuess, IsGuess, IsHeaderNote, begins_as, first_beginning, format_guess, front, guess};

use fault_texts::put_note;
use net_core::{Bytes, NoMemory};

/// A format that the planner reads.
#[derive(Clone, Copy, Debug, PartialEq, Eq)]
pub enum FileFormat {
    Network,
    Model,
    Failures,
    Script,
    Report,
    Flows,
}

/// How a file begins.
#[derive(Clone, Copy, Debug, PartialEq, Eq)]
pub enum Beginning {
    /// With a byte order mark of UTF-8.
    Mark,
    /// With a byte order mark of UTF-16.
    Utf16,
    Gzip,
    Zip,
    Xml,
    /// As the first line of a format, whatever its version.
    Format(FileFormat),
}

/// All ways in which a file may begin that are known.
const BEGINNINGS: [Beginning; 11] = [
    Beginning::Mark,
    Beginning::Utf16,
    Beginning::Gzip,
    Beginning::Zip,
    Beginning::Xml,
    Beginning::Format(FileFormat::Network),
    Beginning::Format(FileFormat::Model),
    Beginning::Format(FileFormat::Failures),
    Beginning::Format(FileFormat::Script),
    Beginning::Format(FileFormat::Report),
    Beginning::Format(FileFormat::Flows),
];

/// How the first line of a format begins.
fn front(format: FileFormat) -> &'static [u8]
    ensures { result.now ≡ front format }
{
    match format {
        FileFormat::Network => b"?SNDlib native format; type: network",
        FileFormat::Model => b"?SNDlib native format; type: model",
        FileFormat::Failures => b"?planner failures",
        FileFormat::Script => b"?planner script",
        FileFormat::Report => b"?planner report",
        FileFormat::Flows => b"?planner flows",
    }
}

/// Whether bytes begin with others.
pub(crate) fn starts_with(bytes: &[u8], first: &[u8]) -> bool
    ensures { result ≡ starts_with nat_eq bytes.now first.now }
{
    bytes.starts_with(first)
}

/// Whether a file begins so.
fn begins_as(beginning: Beginning, bytes: &[u8]) -> bool
    ensures { result ≡ begins_as beginning bytes.now }
{
    match beginning {
        Beginning::Mark => starts_with(bytes, &[239, 187, 191]),
        Beginning::Utf16 => starts_with(bytes, &[255, 254]) || starts_with(bytes, &[254, 255]),
        Beginning::Gzip => starts_with(bytes, &[31, 139]),
        Beginning::Zip => starts_with(bytes, b"PK"),
        Beginning::Xml => starts_with(bytes, b"<"),
        Beginning::Format(format) => starts_with(bytes, front(format)),
    }
}

/// The first of these ways in which a file begins.
fn first_of(beginnings: &[Beginning], bytes: &[u8]) -> Option<Beginning>
    ensures { result ≡ first_beginning bytes.now beginnings.now }
{
    for beginning in beginnings {
        if begins_as(*beginning, bytes) {
            return Some(*beginning);
        }
    }
    None
}

/// How a file begins, if that is known.
fn beginning_of(bytes: &[u8]) -> Option<Beginning>
    ensures { MatchOption result (HasNoGuess bytes.now) (λ b. begins_as b bytes.now ≡ true) }
{
    first_of(&BEGINNINGS, bytes)
}

/// What is said of a file of a format.
fn format_guess(format: FileFormat) -> &'static str
    ensures { result.now ≡ format_guess format }
{
    match format {
        FileFormat::Network => "the file seems to be a network",
        FileFormat::Model => "the file seems to be a model",
        FileFormat::Failures => "the file seems to be a failure list",
        FileFormat::Script => "the file seems to be a script",
        FileFormat::Report => "the file seems to be a report",
        FileFormat::Flows => "the file seems to be a file of flows",
    }
}

/// What is said of a file that begins so.
fn guess(beginning: Beginning) -> &'static str
    ensures { result.now ≡ guess beginning }
{
    match beginning {
        Beginning::Mark => "the file begins with a byte order mark: save it as UTF-8 without one",
        Beginning::Utf16 => "the file seems to be UTF-16: save it as UTF-8",
        Beginning::Gzip => "the file seems to be packed by gzip: unpack it first",
        Beginning::Zip => "the file seems to be packed by zip: unpack it first",
        Beginning::Xml => "the file seems to be XML: a network is read in SNDlib's native format",
        Beginning::Format(format) => format_guess(format),
    }
}

/// What a file with another header than that of the expected format seems to be, by its first bytes; nothing where it begins in no
/// known way. It takes constant time, and no memory.
pub fn header_guess(expected: FileFormat, bytes: &[u8]) -> Option<&'static str>
    ensures { MatchOption result (HasNoGuess bytes.now) (λ words. IsGuess expected bytes.now words.now) }
{
    if starts_with(bytes, front(expected)) {
        return Some("the first line begins so, but ends otherwise: is it of another version?");
    }
    let beginning = beginning_of(bytes)?;
    Some(guess(beginning))
}

/// Puts a line last that says what a file seems to be which has another header than that of the expected format; nothing where there is no
/// guess. It takes constant time, and asks for memory only where the text has no room left.
pub fn put_header_note(text: &mut Bytes, expected: FileFormat, bytes: &[u8]) -> Result<(), NoMemory>
    ensures { OnOk result ((note : List ℕ) × IsHeaderNote expected bytes.now note × (text.new ≡ text.old ++ note)) }
{
    match header_guess(expected, bytes) {
        Some(words) => put_note(text, words),
        None => Ok(()),
    }
}
