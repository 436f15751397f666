ghost use Rattle.fault_texts.specs.FaultTexts.{HasWords};
ghost use Rattle.fault_messages.specs.FailuresMessages.{failures_message};

use fault_texts::Sentence;
use model_reader::FailuresKind;

/// What is wrong with a failure list, by the kind of its first fault. As all sentences here it is a text of the program, and takes no memory.
#[tactic(auto, using(crate::proofs::Decimals::of_255, crate::proofs::Decimals::of_256))]
pub fn failures_sentence(kind: FailuresKind) -> Sentence
    ensures { HasWords result (failures_message kind) }
{
    match kind {
        FailuresKind::Header => Sentence {
            wrong: "this is no failure list",
            help: "the first line of a failure list is: ?planner failures; version: 1",
        },
        FailuresKind::Section => Sentence {
            wrong: "FAILURES and its parenthesis, or ALL_SINGLE_LINKS, is expected here, or the end of the file after them",
            help: "a failure list is: FAILURES ( NAME ( LINK .. ) .. ), or ALL_SINGLE_LINKS",
        },
        FailuresKind::Token => Sentence {
            wrong: "a failure is a name, and in parentheses at least one link",
            help: "as in: duct ( AB BC )",
        },
        FailuresKind::Ended => Sentence {
            wrong: "the file ends too early",
            help: "is it cut off, or does a parenthesis stay open?",
        },
        FailuresKind::LimitName => Sentence {
            wrong: "this name is too long",
            help: "a name has at most 255 bytes",
        },
        FailuresKind::UnknownLink => Sentence {
            wrong: "no link of the network has this name",
            help: "upper and lower case differ; is the list of another network?",
        },
        FailuresKind::DoubleState => Sentence {
            wrong: "an earlier failure has this name",
            help: "each failure has a name of its own",
        },
        FailuresKind::LimitStates => Sentence {
            wrong: "this failure is one too many",
            help: "a list has at most 256 failures",
        },
    }
}
