use net_core::{Bytes, NoMemory};
use snd_tokens::NumberFault;
use text_kit::Refusal;
use text_kit::fault_word::{FaultWord, number_word};

/// What is wrong with a file of flows.
#[derive(Clone, Copy, Debug, PartialEq, Eq)]
pub enum FlowsKind {
    /// The first line is another.
    Header,
    /// Something else than a section's word, the parenthesis after it, or the end.
    Section,
    /// Any other token of the wrong sort.
    Token,
    /// The file ends where something is expected.
    Ended,
    /// A name of more than 255 bytes.
    LimitName,
    /// A count or an amount is faulty.
    Number(NumberFault),
    /// A flow of 0.
    ZeroFlow,
    /// No demand or link has the name, or a link or state is out of its order, or a node is no end of the link.
    UnknownName,
    /// A count out of its range, or a count, part or flow that is one too many or one too few.
    Limit,
}

impl FaultWord for FlowsKind {
    ghost use Rattle.flow_file.specs.FlowKinds.{flows_kind_word};

    ghost word = { flows_kind_word };

    fn put_word(&self, text: &mut Bytes) -> Result<(), NoMemory> {
        let word: &str = match *self {
            FlowsKind::Header => "header",
            FlowsKind::Section => "section",
            FlowsKind::Token => "token",
            FlowsKind::Ended => "ended",
            FlowsKind::LimitName => "limit-name",
            FlowsKind::Number(fault) => number_word(fault),
            FlowsKind::ZeroFlow => "zero-flow",
            FlowsKind::UnknownName => "unknown-name",
            FlowsKind::Limit => "limit",
        };
        text.append(word.as_bytes())
    }
}

/// Why a file of flows was not read.
pub type FlowsRefusal = Refusal<FlowsKind>;
