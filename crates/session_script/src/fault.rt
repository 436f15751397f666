ghost use Rattle.std.specs.Prelude.{◌≡◌};
ghost use Rattle.session_script.specs.ScriptKinds.{script_kind_word};

use net_core::{Bytes, NoMemory};
use snd_tokens::NumberFault;
use text_kit::Refusal;
use text_kit::fault_word::{FaultWord, number_word};

/// What is wrong with a script.
#[derive(Clone, Copy, Debug, PartialEq, Eq)]
pub enum ScriptKind {
    /// The first line is another.
    Header,
    /// A token of the wrong sort, or another word than the one that is expected.
    Token,
    /// The file ends where something is expected.
    Ended,
    /// A word in a caller's place isn't a whole number from 1 to 8.
    Caller,
    /// A need is faulty.
    Number(NumberFault),
    /// A name of more than 255 bytes.
    LimitName,
    /// More than 1,000 commands.
    LimitCommands,
    /// More than 64 commands that ask for a plan.
    LimitPlans,
}

impl ScriptKind {
    /// How the kind is written. It takes constant time.
    pub fn word(&self) -> &'static str
        ensures { result.now ≡ script_kind_word self.now }
    {
        match self {
            ScriptKind::Header => "header",
            ScriptKind::Token => "token",
            ScriptKind::Ended => "ended",
            ScriptKind::Caller => "caller",
            ScriptKind::Number(fault) => number_word(*fault),
            ScriptKind::LimitName => "limit-name",
            ScriptKind::LimitCommands => "limit-commands",
            ScriptKind::LimitPlans => "limit-plans",
        }
    }
}

impl FaultWord for ScriptKind {
    ghost use Rattle.session_script.specs.ScriptKinds.{script_kind_word};

    ghost word = { script_kind_word };

    fn put_word(&self, text: &mut Bytes) -> Result<(), NoMemory> {
        text.append(self.word().as_bytes())
    }
}

/// Why a script was not read.
pub type ScriptRefusal = Refusal<ScriptKind>;
