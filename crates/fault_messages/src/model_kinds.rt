ghost use Rattle.std.specs.Prelude.{◌≡◌};
ghost use Rattle.fault_texts.specs.FaultTexts.{HasWords};
ghost use Rattle.fault_messages.specs.ModelMessages.{missing_help, model_message, value_help};

use fault_texts::Sentence;
use model_reader::{ModelKey, ModelKind};

/// The hint for a key that is missing: the line to add.
fn missing_help(key: ModelKey) -> &'static str
    ensures { result.now ≡ missing_help key }
{
    match key {
        ModelKey::Demand => "add: DEMAND_MODEL = UNDIRECTED",
        ModelKey::Link => "add: LINK_MODEL = UNDIRECTED",
        ModelKey::LinkCapacity => "add: LINK_CAPACITY_MODEL = MODULAR_CAPACITIES",
        ModelKey::FixedCharge => "add: FIXED_CHARGE_MODEL = NO, or YES",
        ModelKey::Routing => "add: ROUTING_MODEL = CONTINUOUS",
        ModelKey::AdmissiblePath => "add: ADMISSIBLE_PATH_MODEL = ALL_PATHS",
        ModelKey::HopLimit => "add: HOP_LIMIT_MODEL = NO",
        ModelKey::Survivability =>
            "add: SURVIVABILITY_MODEL = NO_SURVIVABILITY, or UNRESTRICTED_FLOW_RECONFIGURATION",
    }
}

/// Which values a key may have.
fn value_help(key: ModelKey) -> &'static str
    ensures { result.now ≡ value_help key }
{
    match key {
        ModelKey::Demand => "its value is UNDIRECTED",
        ModelKey::Link => "its value is UNDIRECTED",
        ModelKey::LinkCapacity => "its value is MODULAR_CAPACITIES",
        ModelKey::FixedCharge => "its value is NO or YES",
        ModelKey::Routing => "its value is CONTINUOUS",
        ModelKey::AdmissiblePath => "its value is ALL_PATHS",
        ModelKey::HopLimit => "its value is NO",
        ModelKey::Survivability =>
            "its value is NO_SURVIVABILITY or UNRESTRICTED_FLOW_RECONFIGURATION",
    }
}

/// What is wrong with a model file, by the kind of its first fault. It takes no memory.
pub fn model_sentence(kind: ModelKind) -> Sentence
    ensures { HasWords result (model_message kind) }
{
    match kind {
        ModelKind::Unsupported(key) => Sentence {
            wrong: "this value can't be planned with",
            help: value_help(key),
        },
        ModelKind::Missing(key) => Sentence {
            wrong: "the file ends, and a key is missing",
            help: missing_help(key),
        },
        ModelKind::Header => Sentence {
            wrong: "this is no model",
            help: "the first line of a model is: ?SNDlib native format; type: model; version: 1.0",
        },
        ModelKind::Token => Sentence {
            wrong: "an aspect is a key, an equals sign and a value",
            help: "with spaces between them, and without parentheses",
        },
        ModelKind::Ended => Sentence {
            wrong: "the file ends within an aspect",
            help: "is it cut off?",
        },
        ModelKind::Key => Sentence {
            wrong: "this is no key of a model",
            help: "the keys are DEMAND_MODEL, LINK_MODEL, LINK_CAPACITY_MODEL, FIXED_CHARGE_MODEL, ROUTING_MODEL, ADMISSIBLE_PATH_MODEL, HOP_LIMIT_MODEL and SURVIVABILITY_MODEL",
        },
        ModelKind::DoubleKey => Sentence {
            wrong: "this key stands twice",
            help: "each key is given once",
        },
    }
}
