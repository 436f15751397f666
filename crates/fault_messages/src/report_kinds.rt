ghost use Rattle.fault_texts.specs.FaultTexts.{HasWords};
ghost use Rattle.fault_messages.specs.ReportMessages.{header_message, proof_message, report_message, report_number_message};

use fault_texts::Sentence;
use net_core::Places;
use report_words::fault::ReportKind;
use snd_tokens::NumberFault;

/// What is wrong with a number of a report.
#[tactic(auto, using(crate::proofs::Decimals::of_40, crate::proofs::Decimals::of_126))]
fn number_sentence(fault: NumberFault) -> Sentence
    ensures { HasWords result (report_number_message fault) }
{
    match fault {
        NumberFault::NotANumber => Sentence {
            wrong: "this is no number",
            help: "a whole number has no zeros before it, and a need or money is digits, or digits, a point and digits",
        },
        NumberFault::TooFine => Sentence {
            wrong: "this number has a digit other than 0 past the network's last place",
            help: "was the report made for this network?",
        },
        NumberFault::TooLarge => Sentence {
            wrong: "this number is too large",
            help: "a need is below 2^40 units, and money or any other number below 2^126",
        },
    }
}

/// What is wrong with the first line of a report.
fn header_sentence(places: Places) -> Sentence
    ensures { HasWords result (header_message places) }
{
    match places {
        Places::Three => Sentence {
            wrong: "this is no report of this network",
            help: "the first line of its reports is: ?planner report; version: 1",
        },
        Places::Six => Sentence {
            wrong: "this is no report of this network",
            help: "the first line of its reports is: ?planner report; version: 2",
        },
    }
}

/// What is wrong with a report for a network of these places, by the kind of its first fault. It takes no memory.
#[tactic(auto, using(crate::proofs::Decimals::of_255))]
pub fn report_sentence(places: Places, kind: ReportKind) -> Sentence
    ensures { HasWords result (report_message places kind) }
{
    match kind {
        ReportKind::Header => header_sentence(places),
        ReportKind::Number(fault) => number_sentence(fault),
        ReportKind::Section => Sentence {
            wrong: "another section is expected here, or its parenthesis, or the end of the report",
            help: "the sections are NOTES, JOURNAL, POOL and OUTCOMES, in this order and each in parentheses",
        },
        ReportKind::Token => Sentence {
            wrong: "another word is expected here, or a parenthesis",
            help: "was the report changed by hand?",
        },
        ReportKind::Ended => Sentence {
            wrong: "the report ends too early",
            help: "is it cut off?",
        },
        ReportKind::UnknownName => Sentence {
            wrong: "no link, node or demand has this name, or another name is expected here",
            help: "nodes, links and failures are called as in these files, and listed in their order",
        },
        ReportKind::DoubleName => Sentence {
            wrong: "an earlier demand of the plan has this name",
            help: "each demand has a name of its own",
        },
        ReportKind::LimitName => Sentence {
            wrong: "this name is too long",
            help: "a name has at most 255 bytes",
        },
        ReportKind::Limit => Sentence {
            wrong: "this number is out of its range, or something is one too many or too few here",
            help: "is the report of another network, or of another failure list?",
        },
    }
}

/// What is wrong with the proof lines below a report, by the kind of their first fault. It takes no memory.
#[tactic(auto, using(crate::proofs::Decimals::of_255))]
pub fn proof_sentence(kind: ReportKind) -> Sentence
    ensures { HasWords result (proof_message kind) }
{
    match kind {
        ReportKind::Number(fault) => number_sentence(fault),
        ReportKind::Header => Sentence {
            wrong: "this is no proof line",
            help: "a proof line is a # and words, and stands below the report",
        },
        ReportKind::Section => Sentence {
            wrong: "this is no proof line",
            help: "a proof line is a # and words, and stands below the report",
        },
        ReportKind::Token => Sentence {
            wrong: "another proof line is expected here, or another word in it",
            help: "were the lines below the report changed by hand?",
        },
        ReportKind::Ended => Sentence {
            wrong: "a proof line ends too early, or the lines end before they say what they show",
            help: "are they cut off? the last one is cheapest or above",
        },
        ReportKind::UnknownName => Sentence {
            wrong: "no link or demand has this name",
            help: "is the report of another network, or of another failure list?",
        },
        ReportKind::DoubleName => Sentence {
            wrong: "this name stands twice",
            help: "were the lines below the report changed by hand?",
        },
        ReportKind::LimitName => Sentence {
            wrong: "this name is too long",
            help: "a name has at most 255 bytes",
        },
        ReportKind::Limit => Sentence {
            wrong: "this number is out of its range, or a length or a proof line is one too many or too few here",
            help: "were the lines below the report changed by hand?",
        },
    }
}
