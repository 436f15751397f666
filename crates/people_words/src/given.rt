ghost use Rattle.std.specs.Prelude.{◌≡◌, ◌∷◌, ℕ, List, None, IfOk, MatchOption, map, string_bytes};
ghost use Rattle.people_words.{specs.GivenWords.{AreRead, GivenOption}, specs.inner.Causes.{IsRest, TakesWord, given_names, given_options}};

use crate::kinds::{WordKind, kind_of};
use net_core::{List as Items, NoMemory};
use std::alloc::Global;

/// An option, and its value, which is empty where it has none.
#[derive(Clone, Copy)]
pub(crate) struct OptionValue<'w> {
    pub(crate) option: &'w str,
    pub(crate) value: &'w str,
}

/// What words give: the names in their order, and the options in theirs.
#[derive(Drop)]
pub(crate) struct Given<'w> {
    pub(crate) names: Items<&'w str>,
    pub(crate) options: Items<OptionValue<'w>>,
}

/// What is awaited after some words.
#[derive(Clone, Copy)]
pub(crate) enum Awaited<'w> {
    /// A name or an option.
    Word,
    /// The value of this option.
    Value(&'w str),
    /// Names alone.
    Names,
}

/// What is awaited after a word where a name or an option was, with what it gives; none where it is no option that there is.
fn take_word<'w>(given: &mut Given<'w>, word: &'w str) -> Result<Option<Awaited<'w>>, NoMemory>
    ensures { IfOk result (λ next. MatchOption next
        ((rest names : List (List ℕ)) (options : List GivenOption) → IsRest Awaited.Word (word.now ∷ rest) names options → ⊥)
        (λ n. TakesWord Awaited.Word word.now given.old n given.new)) }
{
    match kind_of(word) {
        WordKind::Name => {
            given.names.push(word)?;
            Ok(Some(Awaited::Word))
        }
        WordKind::End => Ok(Some(Awaited::Names)),
        WordKind::Flag => {
            given.options.push(OptionValue {
                option: word,
                value: "",
            })?;
            Ok(Some(Awaited::Word))
        }
        WordKind::Valued => Ok(Some(Awaited::Value(word))),
        WordKind::Unknown => Ok(None),
    }
}

/// What is awaited after a word, with what it gives; none where the word is out of place.
fn take<'w>(
    given: &mut Given<'w>,
    awaited: Awaited<'w>,
    word: &'w str,
) -> Result<Option<Awaited<'w>>, NoMemory>
    ensures { IfOk result (λ next. MatchOption next
        ((rest names : List (List ℕ)) (options : List GivenOption) → IsRest awaited.entry (word.now ∷ rest) names options → ⊥)
        (λ n. TakesWord awaited.entry word.now given.old n given.new)) }
{
    match awaited {
        Awaited::Word => {
            let next = take_word(given, word)?;
            Ok(next)
        }
        Awaited::Value(option) => {
            given.options.push(OptionValue {
                option,
                value: word,
            })?;
            Ok(Some(Awaited::Word))
        }
        Awaited::Names => {
            given.names.push(word)?;
            Ok(Some(Awaited::Names))
        }
    }
}

/// What all words give, whatever the command is; none where one of them is out of place. Which options it takes is asked afterwards. It takes
/// time and memory in the words.
pub(crate) fn given_by(alloc: Global, words: &[String]) -> Result<Option<Given<'_>>, NoMemory>
    ensures { IfOk result (λ r. MatchOption r
        ((names : List (List ℕ)) (options : List GivenOption) → AreRead None (map string_bytes words.now) names options → ⊥)
        (λ g. AreRead None (map string_bytes words.now) (given_names g) (given_options g)
        × ((names : List (List ℕ)) (options : List GivenOption) → AreRead None (map string_bytes words.now) names options
        → (names ≡ given_names g) × (options ≡ given_options g)))) }
{
    let mut given = Given {
        names: Items::new(alloc),
        options: Items::new(alloc),
    };
    let mut awaited = Awaited::Word;
    for word in words {
        match take(&mut given, awaited, word.as_str())? {
            Some(next) => awaited = next,
            None => return Ok(None),
        }
    }
    match awaited {
        Awaited::Word => Ok(Some(given)),
        Awaited::Names => Ok(Some(given)),
        Awaited::Value(_) => Ok(None),
    }
}
