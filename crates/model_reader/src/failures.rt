use net_core::{Bytes, List, Listed, NoMemory};
use text_kit::{FaultWord, Refusal};

/// What is wrong with a failure list.
#[derive(Clone, Copy, Debug, PartialEq, Eq)]
pub enum FailuresKind {
    /// The first line is another.
    Header,
    /// Something else than a section's word, the parenthesis after it, or the end.
    Section,
    /// A word or a parenthesis where the other is expected, or a state without links.
    Token,
    /// The file ends where something is expected.
    Ended,
    /// A name of more than 255 bytes.
    LimitName,
    /// No link of the network has the name.
    UnknownLink,
    /// An earlier state has the name.
    DoubleState,
    /// More than 256 states.
    LimitStates,
}

impl FaultWord for FailuresKind {
    ghost use Rattle.model_reader.specs.FaultWords.{failures_word};

    ghost word = { failures_word };

    fn put_word(&self, text: &mut Bytes) -> Result<(), NoMemory> {
        let word: &[u8] = match *self {
            FailuresKind::Header => b"header",
            FailuresKind::Section => b"section",
            FailuresKind::Token => b"token",
            FailuresKind::Ended => b"ended",
            FailuresKind::LimitName => b"limit-name",
            FailuresKind::UnknownLink => b"unknown-link",
            FailuresKind::DoubleState => b"double-state",
            FailuresKind::LimitStates => b"limit-states",
        };
        text.append(word)
    }
}

/// Why a failure list was not read.
pub type FailuresRefusal = Refusal<FailuresKind>;

/// What a failure list says.
#[derive(Drop)]
pub enum FailureList {
    /// States one by one, each with its name and the links that fail.
    OneByOne(List<Listed>),
    /// Every single-link failure, by one word.
    EverySingleLink,
}
