ghost use Rattle.std.specs.Prelude.{◌≡◌, IfOk, map};
ghost use Rattle.model_reader.specs.Terms.{all_keys, key_word};

use model_reader::{ModelKey, key_word};
use net_core::{Bytes, Link, List as Items, NoMemory};
use std::alloc::Global;

/// All keys of a model.
const KEYS: [ModelKey; 8] = [
    ModelKey::Demand,
    ModelKey::Link,
    ModelKey::LinkCapacity,
    ModelKey::FixedCharge,
    ModelKey::Routing,
    ModelKey::AdmissiblePath,
    ModelKey::HopLimit,
    ModelKey::Survivability,
];

/// The words of keys, in order.
fn words_of(alloc: Global, keys: &[ModelKey]) -> Result<Items<Bytes>, NoMemory>
    ensures { IfOk result (λ words. words ≡ map key_word keys.now) }
{
    let mut words = Items::new(alloc);
    for key in keys {
        words.push(Items::from_slice(alloc, key_word(*key))?)?;
    }
    Ok(words)
}

/// The words of all keys of a model.
pub(crate) fn key_words(alloc: Global) -> Result<Items<Bytes>, NoMemory>
    ensures { IfOk result (λ words. words ≡ map key_word all_keys) }
{
    words_of(alloc, &KEYS)
}

/// The names of links, in order.
pub(crate) fn link_names(alloc: Global, links: &[Link]) -> Result<Items<Bytes>, NoMemory>
    ensures { IfOk result (λ names. names ≡ map (λ l. l.name) links.now) }
{
    let mut names = Items::new(alloc);
    for link in links {
        names.push(Items::from_slice(alloc, link.name.bytes())?)?;
    }
    Ok(names)
}
