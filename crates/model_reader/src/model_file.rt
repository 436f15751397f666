ghost use Rattle.std.{specs.Prelude.{◌≡◌, ◌<◌, [], IsTrue, IfOk, IfErr, Ok, not}, specs.List.list_any};
ghost use Rattle.net_core.specs.Terms.{are_same};
ghost use Rattle.snd_tokens.specs.Terms.{left, size};
ghost use Rattle.text_kit.specs.Terms.{AnswersAs, ReadsAllAs, ReadsAs, TakesElement, IsNotTooEarly, TheEnd, list_at, word_at};
ghost use Rattle.model_reader.{specs.declared.model.Model.{Model as Mod}, specs.Models.{SpellsModel, asks_to_charge, asks_to_reconfigure, key_of, key_word, model_of_settings, plain_word, value_word}, specs.ModelReading.{all_keys, first_key, has_key, is_setting, key_after, missing, model_of, setting_at, value_of}};

use crate::model::{Model, ModelKey, ModelKind, ModelRefusal, Setting};
use net_core::List;
use snd_tokens::Cursor;
use std::alloc::Global;
use text_kit::refusal::bad;
use text_kit::steps::{ends, expect, placed, text_after_header, word};

const HEADER: &[u8] = b"?SNDlib native format; type: model; version: 1.0";

const KEYS: [ModelKey; 8] = [
    ModelKey::Demand,
    ModelKey::Link,
    ModelKey::LinkCapacity,
    ModelKey::FixedCharge,
    ModelKey::Routing,
    ModelKey::AdmissiblePath,
    ModelKey::HopLimit,
    ModelKey::Survivability,
];

/// The word of a key. It takes constant time.
pub fn key_word(key: ModelKey) -> &'static [u8]
    ensures { result.now ≡ key_word key }
{
    match key {
        ModelKey::Demand => b"DEMAND_MODEL",
        ModelKey::Link => b"LINK_MODEL",
        ModelKey::LinkCapacity => b"LINK_CAPACITY_MODEL",
        ModelKey::FixedCharge => b"FIXED_CHARGE_MODEL",
        ModelKey::Routing => b"ROUTING_MODEL",
        ModelKey::AdmissiblePath => b"ADMISSIBLE_PATH_MODEL",
        ModelKey::HopLimit => b"HOP_LIMIT_MODEL",
        ModelKey::Survivability => b"SURVIVABILITY_MODEL",
    }
}

/// The plain value of a key.
fn plain_word(key: ModelKey) -> &'static [u8]
    ensures { result.now ≡ plain_word key }
{
    match key {
        ModelKey::Demand | ModelKey::Link => b"UNDIRECTED",
        ModelKey::LinkCapacity => b"MODULAR_CAPACITIES",
        ModelKey::FixedCharge | ModelKey::HopLimit => b"NO",
        ModelKey::Routing => b"CONTINUOUS",
        ModelKey::AdmissiblePath => b"ALL_PATHS",
        ModelKey::Survivability => b"NO_SURVIVABILITY",
    }
}

impl Setting {
    fn key(self) -> ModelKey
        ensures { result ≡ key_of self }
    {
        match self {
            Setting::Plain(key) => key,
            Setting::Reconfiguration => ModelKey::Survivability,
            Setting::Charge => ModelKey::FixedCharge,
        }
    }

    fn value_word(self) -> &'static [u8]
        ensures { result.now ≡ value_word self }
    {
        match self {
            Setting::Plain(key) => plain_word(key),
            Setting::Reconfiguration => b"UNRESTRICTED_FLOW_RECONFIGURATION",
            Setting::Charge => b"YES",
        }
    }

    fn asks_to_reconfigure(self) -> bool
        ensures { result ≡ asks_to_reconfigure self }
    {
        match self {
            Setting::Plain(_) | Setting::Charge => false,
            Setting::Reconfiguration => true,
        }
    }

    fn asks_to_charge(self) -> bool
        ensures { result ≡ asks_to_charge self }
    {
        match self {
            Setting::Plain(_) | Setting::Reconfiguration => false,
            Setting::Charge => true,
        }
    }
}

fn is_word_of(key: ModelKey, word: &[u8]) -> bool
    ensures { result ≡ are_same (key_word key) word.now }
{
    key_word(key) == word
}

/// The first of these keys that has the word.
fn first_of(keys: &[ModelKey], word: &[u8]) -> Option<ModelKey>
    ensures { result ≡ first_key (λ k. are_same (key_word k) word.now) keys.now }
{
    for key in keys {
        if is_word_of(*key, word) {
            return Some(*key);
        }
    }
    None
}

/// The key of a word.
fn key_of_word(word: &[u8]) -> Option<ModelKey>
    ensures { result ≡ first_key (λ k. are_same (key_word k) word.now) all_keys }
{
    first_of(&KEYS, word)
}

/// Whether one of the settings has the key.
fn has_key(settings: &[Setting], key: ModelKey) -> bool
    ensures { result ≡ has_key settings.now key }
{
    settings.iter().any(|s| is_word_of(s.key(), key_word(key)))
}

/// A word as a key after earlier settings.
fn key_after(sofar: &[Setting], word: &[u8]) -> Result<ModelKey, ModelKind>
    ensures { result ≡ key_after sofar.now word.now }
{
    let Some(key) = key_of_word(word) else {
        return Err(ModelKind::Key);
    };
    if has_key(sofar, key) {
        return Err(ModelKind::DoubleKey);
    }
    Ok(key)
}

/// Whether a key and a word spell the setting.
fn is_setting(setting: Setting, key: ModelKey, word: &[u8]) -> bool
    ensures { result ≡ is_setting setting key word.now }
{
    is_word_of(key, key_word(setting.key())) && word == setting.value_word()
}

/// A word as the value of a key.
fn value_of(key: ModelKey, word: &[u8]) -> Result<Setting, ModelKind>
    ensures { result ≡ value_of key word.now }
{
    if word == plain_word(key) {
        return Ok(Setting::Plain(key));
    }
    if is_setting(Setting::Reconfiguration, key, word) {
        return Ok(Setting::Reconfiguration);
    }
    if is_setting(Setting::Charge, key, word) {
        return Ok(Setting::Charge);
    }
    Err(ModelKind::Unsupported(key))
}

/// Takes a key that no earlier setting has.
fn key(sofar: &[Setting], text: &mut Cursor) -> Result<ModelKey, ModelRefusal>
    ensures { ReadsAs (λ k. k) result (left text.new) (word_at ModelKind.Token ModelKind.Ended (key_after sofar.now) (left text.old)) }
{
    let (at, word) = word(ModelKind::Token, ModelKind::Ended, text)?;
    placed(at, key_after(sofar, word))
}

/// Takes the value of a key.
fn value(key: ModelKey, text: &mut Cursor) -> Result<Setting, ModelRefusal>
    ensures { ReadsAs (λ s. s) result (left text.new) (word_at ModelKind.Token ModelKind.Ended (value_of key) (left text.old)) }
{
    let (at, word) = word(ModelKind::Token, ModelKind::Ended, text)?;
    placed(at, value_of(key, word))
}

/// Takes a setting after earlier ones.
#[tactic(auto, unfolding(crate::specs::ModelReading::setting_at))]
fn setting(sofar: &[Setting], text: &mut Cursor) -> Result<Setting, ModelRefusal>
    ensures { ReadsAs (λ s. s) result (left text.new) (setting_at sofar.now (left text.old)) }
{
    let key = key(sofar, text)?;
    expect(ModelKind::Token, ModelKind::Ended, b"=", text)?;
    value(key, text)
}

/// The first of these keys that no setting has.
fn first_missing(keys: &[ModelKey], settings: &[Setting]) -> Option<ModelKey>
    ensures { result ≡ first_key (λ k. not (has_key settings.now k)) keys.now }
{
    for key in keys {
        if !has_key(settings, *key) {
            return Some(*key);
        }
    }
    None
}

/// The fault of settings after which the file ends.
fn missing(settings: &[Setting]) -> Option<ModelKind>
    ensures { result ≡ missing settings.now }
{
    match first_missing(&KEYS, settings) {
        Some(key) => Some(ModelKind::Missing(key)),
        None => None,
    }
}

/// Takes one setting more, and says whether there was one.
fn take_setting(all: &mut List<Setting>, text: &mut Cursor) -> Result<bool, ModelRefusal>
    ensures turn { TakesElement result (list_at TheEnd missing setting_at all.old (left text.old))
        (list_at TheEnd missing setting_at all.new (left text.new)) (Ok (all.new, left text.new)) }
    ensures shorter { IfOk result (λ more. IsTrue more → size (left text.new) < size (left text.old)) }
{
    if let Some(at) = ends(text) {
        if let Some(kind) = missing(all.items()) {
            return Err(bad(at, kind));
        }
        return Ok(false);
    }
    let setting = setting(all.items(), text)?;
    all.push(setting)?;
    Ok(true)
}

/// Takes settings, up to the end.
fn settings(alloc: Global, text: &mut Cursor) -> Result<List<Setting>, ModelRefusal>
    ensures { ReadsAs (λ l. l) result (left text.new) (list_at TheEnd missing setting_at [] (left text.old)) }
{
    let mut all = List::new(alloc);
    while take_setting(&mut all, text)? {}
    Ok(all)
}

/// Whether one of the settings asks for reconfiguration.
fn reconfigures(settings: &[Setting]) -> bool
    ensures { result ≡ list_any asks_to_reconfigure settings.now }
{
    settings.iter().any(|s| s.asks_to_reconfigure())
}

/// Whether one of the settings asks for a fixed charge.
fn charges(settings: &[Setting]) -> bool
    ensures { result ≡ list_any asks_to_charge settings.now }
{
    settings.iter().any(|s| s.asks_to_charge())
}

/// The model of settings.
fn model_of_settings(settings: &[Setting]) -> Model
    ensures { result ≡ model_of_settings settings.now }
{
    Model {
        reconfigure: reconfigures(settings),
        charge: charges(settings),
    }
}

/// The whole file.
fn file(alloc: Global, bytes: &[u8]) -> Result<Model, ModelRefusal>
    ensures { ReadsAllAs (λ m. m) result (model_of bytes.now) }
{
    let mut text = text_after_header(ModelKind::Header, bytes, HEADER)?;
    let settings = settings(alloc, &mut text)?;
    Ok(model_of_settings(settings.items()))
}

/// The model that a file spells. It takes memory for its settings, eight at most, and time in proportion
/// to the bytes.
///
/// ```text
/// let model = read_model(alloc, bytes)?;    // with FIXED_CHARGE_MODEL = YES and SURVIVABILITY_MODEL = NO_SURVIVABILITY `charge` alone is true
/// // of a header and the line HOP_LIMIT_MODEL = INDIVIDUAL: Bad { at: 67, kind: ModelKind::Unsupported(ModelKey::HopLimit) }
/// ```
pub fn read_model(alloc: Global, bytes: &[u8]) -> Result<Model, ModelRefusal>
    // What is read is spelled.
    ensures found { IfOk result (λ m. SpellsModel bytes.now m) }
    // What is spelled is read, unless memory runs out.
    ensures only { (m : Mod) → SpellsModel bytes.now m → AnswersAs (λ x. x) result m }
    // A fault is the first one that reading from left to right meets.
    ensures exact { ReadsAllAs (λ m. m) result (model_of bytes.now) }
    // It isn't too early: no bytes that agree past it are spelled right.
    ensures not_early { IfErr result (IsNotTooEarly SpellsModel bytes.now) }
{
    file(alloc, bytes)
}
