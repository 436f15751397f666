ghost use Rattle.std.specs.Prelude.{◌≡◌, ◌++◌, ℕ, List, OnOk};
ghost use Rattle.text_kit.specs.Numbers.{number_word};

use net_core::{Bytes, NoMemory};
use snd_tokens::NumberFault;

/// A kind of fault of a file, which a word names.
pub trait FaultWord {
    /// The word.
    ghost word: { Self → List ℕ };

    /// Puts the word last.
    fn put_word(&self, text: &mut Bytes) -> Result<(), NoMemory>
        ensures { OnOk result (text.new ≡ text.old ++ word self.now) };
}

/// How a fault of a number is written. It takes constant time.
pub fn number_word(fault: NumberFault) -> &'static str
    ensures { result.now ≡ number_word fault }
{
    match fault {
        NumberFault::NotANumber => "number-not",
        NumberFault::TooFine => "number-fine",
        NumberFault::TooLarge => "number-large",
    }
}
