use crate::model_file::key_word;
use net_core::{Bytes, NoMemory};
use text_kit::{FaultWord, Refusal};

/// What a model file asks for.
#[derive(Clone, Copy, Debug, PartialEq, Eq)]
pub struct Model {
    /// All demands may be routed anew in each failure state.
    pub reconfigure: bool,
    /// The setup cost of a link is charged where a module is installed there.
    pub charge: bool,
}

/// A key of a model file, an aspect of planning.
#[derive(Clone, Copy, Debug, PartialEq, Eq)]
pub enum ModelKey {
    Demand,
    Link,
    LinkCapacity,
    FixedCharge,
    Routing,
    AdmissiblePath,
    HopLimit,
    Survivability,
}

/// A key with a value that is served.
#[derive(Clone, Copy, Debug, PartialEq, Eq)]
pub enum Setting {
    /// A key with its plain value.
    Plain(ModelKey),
    /// Survivability with reconfiguration.
    Reconfiguration,
    /// A fixed charge: the setup of a link on which a module is installed.
    Charge,
}

/// What is wrong with a model file.
#[derive(Clone, Copy, Debug, PartialEq, Eq)]
pub enum ModelKind {
    /// The first line is another.
    Header,
    /// A parenthesis, or another word than `=` after a key.
    Token,
    /// The file ends after a key or its `=`.
    Ended,
    /// A word is no key.
    Key,
    /// A key is given twice.
    DoubleKey,
    /// The value of the key is none that is served.
    Unsupported(ModelKey),
    /// The first key that the file lacks.
    Missing(ModelKey),
}

impl FaultWord for ModelKind {
    ghost use Rattle.model_reader.specs.FaultWords.{model_word};

    ghost word = { model_word };

    fn put_word(&self, text: &mut Bytes) -> Result<(), NoMemory> {
        let (front, key): (&[u8], &[u8]) = match *self {
            ModelKind::Header => (b"header", b""),
            ModelKind::Token => (b"token", b""),
            ModelKind::Ended => (b"ended", b""),
            ModelKind::Key => (b"key", b""),
            ModelKind::DoubleKey => (b"double-key", b""),
            ModelKind::Unsupported(key) => (b"unsupported-", key_word(key)),
            ModelKind::Missing(key) => (b"missing-", key_word(key)),
        };
        text.append(front)?;
        text.append(key)
    }
}

/// Why a model file was not read.
pub type ModelRefusal = Refusal<ModelKind>;
