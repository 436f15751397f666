ghost use Rattle.std.specs.Prelude.{◌≡◌};
ghost use Rattle.report_words.specs.ReportKinds.{report_kind_word};

use net_core::{Bytes, NoMemory};
use snd_tokens::NumberFault;
use text_kit::Refusal;
use text_kit::fault_word::{FaultWord, number_word};

/// What is wrong with a report.
#[derive(Clone, Copy, Debug, PartialEq, Eq)]
pub enum ReportKind {
    /// The first line is another.
    Header,
    /// Something other than a section's word, the parenthesis after it, or the end.
    Section,
    /// Any other token of the wrong sort, or another word than one that is expected.
    Token,
    /// The file ends where something is expected.
    Ended,
    /// A number is faulty.
    Number(NumberFault),
    /// No link, node, demand or state has the name, or another one than it is expected.
    UnknownName,
    /// An earlier demand of the plan has a demand's name.
    DoubleName,
    /// A name of more than 255 bytes.
    LimitName,
    /// A number that is out of its range, or something that is one too many or one too few.
    Limit,
}

impl ReportKind {
    /// How the kind is written, in a line of a refusal. It takes no memory.
    pub fn word(&self) -> &'static str
        ensures { result.now ≡ report_kind_word self.now }
    {
        match self {
            ReportKind::Header => "header",
            ReportKind::Section => "section",
            ReportKind::Token => "token",
            ReportKind::Ended => "ended",
            ReportKind::Number(fault) => number_word(*fault),
            ReportKind::UnknownName => "unknown-name",
            ReportKind::DoubleName => "double-name",
            ReportKind::LimitName => "limit-name",
            ReportKind::Limit => "limit",
        }
    }
}

impl FaultWord for ReportKind {
    ghost use Rattle.report_words.specs.ReportKinds.{report_kind_word};

    ghost word = { report_kind_word };

    fn put_word(&self, text: &mut Bytes) -> Result<(), NoMemory> {
        text.append(self.word().as_bytes())
    }
}

/// Why a report was not read: its first fault and the place of that in bytes from 0, or that memory
/// ran out.
pub type ReportRefusal = Refusal<ReportKind>;
