ghost use Rattle.std.specs.Prelude.{◌≡◌};
ghost use Rattle.sndlib_reader.specs.Kinds.{kind_word};

use net_core::{Bytes, NoMemory};
use snd_tokens::NumberFault;
use text_kit::Refusal;
use text_kit::fault_word::{FaultWord, number_word};

/// What has a greatest number or amount.
#[derive(Clone, Copy, Debug)]
pub enum Limited {
    /// A name has at most 255 bytes.
    Name,
    /// At most 128 nodes.
    Nodes,
    /// At most 256 links.
    Links,
    /// At most 16 modules of a link.
    Modules,
    /// At most 2,048 demands.
    Demands,
    /// All needs together are below 2^44 units of the network.
    Total,
}

/// What is wrong with a network file.
#[derive(Clone, Copy, Debug)]
pub enum ReadKind {
    /// The first line is another.
    Header,
    /// Something other than a section's word, the parenthesis after it, or the end.
    Section,
    /// Any other token of the wrong sort.
    Token,
    /// The file ends where something is expected.
    Ended,
    /// Something is one too many, or too much.
    Limit(Limited),
    /// A number is faulty.
    Number(NumberFault),
    /// The name of a node, a link or a demand is expected, and none has this one.
    UnknownName,
    /// An earlier node has a node's name, an earlier link a link's, or an earlier demand a demand's.
    DoubleName,
    /// A link's ends are one node.
    SelfLink,
    /// A demand's ends are one node.
    SelfDemand,
    /// A module's capacity is 0.
    ZeroModule,
    /// A link has pre-installed capacity and no module.
    FixedLink,
}

impl ReadKind {
    /// How the kind is written. It takes constant time.
    pub fn word(&self) -> &'static str
        ensures { result.now ≡ kind_word self.now }
    {
        match self {
            ReadKind::Header => "header",
            ReadKind::Section => "section",
            ReadKind::Token => "token",
            ReadKind::Ended => "ended",
            ReadKind::Limit(limited) => limit_word(*limited),
            ReadKind::Number(fault) => number_word(*fault),
            ReadKind::UnknownName => "unknown-name",
            ReadKind::DoubleName => "double-name",
            ReadKind::SelfLink => "self-link",
            ReadKind::SelfDemand => "self-demand",
            ReadKind::ZeroModule => "zero-module",
            ReadKind::FixedLink => "fixed-link",
        }
    }
}

fn limit_word(limited: Limited) -> &'static str
    ensures { result.now ≡ kind_word (ReadKind.Limit limited) }
{
    match limited {
        Limited::Name => "limit-name",
        Limited::Nodes => "limit-nodes",
        Limited::Links => "limit-links",
        Limited::Modules => "limit-modules",
        Limited::Demands => "limit-demands",
        Limited::Total => "limit-total",
    }
}

impl FaultWord for ReadKind {
    ghost use Rattle.sndlib_reader.specs.Kinds.{kind_word};

    ghost word = { kind_word };

    fn put_word(&self, text: &mut Bytes) -> Result<(), NoMemory> {
        text.append(self.word().as_bytes())
    }
}

/// Why a file was not read.
pub type ReadRefusal = Refusal<ReadKind>;
