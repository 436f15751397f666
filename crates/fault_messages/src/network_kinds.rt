ghost use Rattle.std.specs.Prelude.{◌≡◌};
ghost use Rattle.fault_texts.specs.FaultTexts.{HasWords};
ghost use Rattle.fault_messages.specs.NetworkMessages.{limit_message, network_message, number_message};

use fault_texts::Sentence;
use snd_tokens::NumberFault;
use sndlib_reader::{Limited, ReadKind};

/// What is wrong with something that a network has too many or too much of.
#[tactic(auto, using(crate::proofs::Decimals::of_16, crate::proofs::Decimals::of_128, crate::proofs::Decimals::of_255, crate::proofs::Decimals::of_256, crate::proofs::Decimals::of_2048, crate::proofs::Decimals::of_17592186, crate::proofs::Decimals::of_17592186044))]
fn limit_sentence(limited: Limited) -> Sentence
    ensures { HasWords result (limit_message limited) }
{
    match limited {
        Limited::Name => Sentence {
            wrong: "this name is too long",
            help: "a name has at most 255 bytes",
        },
        Limited::Nodes => Sentence {
            wrong: "this node is one too many",
            help: "a network has at most 128 nodes",
        },
        Limited::Links => Sentence {
            wrong: "this link is one too many",
            help: "a network has at most 256 links",
        },
        Limited::Modules => Sentence {
            wrong: "this module is one too many",
            help: "a link has at most 16 modules",
        },
        Limited::Demands => Sentence {
            wrong: "this demand is one too many",
            help: "a network has at most 2048 demands",
        },
        Limited::Total => Sentence {
            wrong: "with this demand all needs together are too large",
            help: "they sum to less than 17592186044.416, or than 17592186.044416 in a file with a finer number than thousandths",
        },
    }
}

/// What is wrong with a number.
#[tactic(auto, using(crate::proofs::Decimals::of_1099511, crate::proofs::Decimals::of_1099511627))]
fn number_sentence(fault: NumberFault) -> Sentence
    ensures { HasWords result (number_message fault) }
{
    match fault {
        NumberFault::NotANumber => Sentence {
            wrong: "this is no number",
            help: "a number is digits, or digits, a point and digits; it has no sign, no exponent and no comma, and a path length is digits alone, or UNLIMITED",
        },
        NumberFault::TooFine => Sentence {
            wrong: "this number has too many places",
            help: "past the sixth place after the point there are only zeros, and a routing unit is a whole number",
        },
        NumberFault::TooLarge => Sentence {
            wrong: "this number is too large",
            help: "an amount, and a demand's unit times its value, is below 1099511627.776, or below 1099511.627776 in a file with a finer number than thousandths",
        },
    }
}

/// What is wrong with a network file.
fn network_wrong(kind: ReadKind) -> &'static str
    ensures { result.now ≡ (network_message kind).0 }
{
    match kind {
        ReadKind::Limit(limited) => limit_sentence(limited).wrong,
        ReadKind::Number(fault) => number_sentence(fault).wrong,
        ReadKind::Header => "this is no network",
        ReadKind::Section =>
            "another section is expected here, or its parenthesis, or the end of the file",
        ReadKind::Token => "another word or parenthesis is expected here",
        ReadKind::Ended => "the file ends too early",
        ReadKind::UnknownName =>
            "no node, link or demand of the kind that is due here has this name",
        ReadKind::DoubleName => "this name stands twice",
        ReadKind::SelfLink => "this link joins a node to itself",
        ReadKind::SelfDemand => "this demand goes from a node to itself",
        ReadKind::ZeroModule => "this module has no capacity",
        ReadKind::FixedLink => "this link has capacity in place and no module",
    }
}

/// What a network file should have there, or what to do.
fn network_help(kind: ReadKind) -> &'static str
    ensures { result.now ≡ (network_message kind).1 }
{
    match kind {
        ReadKind::Limit(limited) => limit_sentence(limited).help,
        ReadKind::Number(fault) => number_sentence(fault).help,
        ReadKind::Header =>
            "the first line of a network is: ?SNDlib native format; type: network; version: 1.0",
        ReadKind::Section =>
            "the sections are NODES, LINKS and DEMANDS, in this order and each in parentheses; META may stand before them, and ADMISSIBLE_PATHS after them",
        ReadKind::Token =>
            "a link is: NAME ( NODE NODE ) number number number number ( capacity cost .. ); a demand is: NAME ( NODE NODE ) unit value UNLIMITED",
        ReadKind::Ended => "is it cut off, or does a parenthesis stay open?",
        ReadKind::UnknownName =>
            "a link or a demand ends at nodes of the list, and an admissible path is one of links for a demand; upper and lower case differ",
        ReadKind::DoubleName => "each node, each link and each demand has a name of its own",
        ReadKind::SelfLink => "the ends of a link are two nodes",
        ReadKind::SelfDemand => "the ends of a demand are two nodes",
        ReadKind::ZeroModule => "the capacity of a module is above 0",
        ReadKind::FixedLink =>
            "a link is planned only with a module; give it one, or leave the link out",
    }
}

/// What is wrong with a network file, by the kind of its first fault. It takes no memory.
pub fn network_sentence(kind: ReadKind) -> Sentence
    ensures { HasWords result (network_message kind) }
{
    Sentence {
        wrong: network_wrong(kind),
        help: network_help(kind),
    }
}
