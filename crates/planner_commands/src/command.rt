ghost use Rattle.std.specs.Prelude.{◌≡◌, ◌≤◌, ◌<◌, ◌^◌, ◌==◌, ◌∷◌, [], ℕ, List, IsTrue, ◌↔◌, MatchOption, map, slice_index, string_bytes};
ghost use Rattle.input_files.specs.Terms.{PlanWords, named};
ghost use Rattle.planner_commands.{specs.Commands.{AreFiles, AreFourFiles, AreProof, AreSample, IsCommand, IsNamed, IsNumberWord, MayBeFiles, may_be_file}, specs.inner.Steps.asked_command};
ghost use Rattle.planner_commands.specs.Commands as commands;

use crate::words::{Command, FourFiles, ProofWords, SampleWords};
use input_files::{DEFAULT, PlanFiles};

/// Whether a word may name a file.
fn may_be_file(word: &str) -> bool
    ensures { result ≡ may_be_file word.now }
{
    match word.as_bytes() {
        [] => false,
        [first, ..] => *first != b'-',
    }
}

/// Whether all words may name files.
fn all_may_be_files(words: &[String]) -> bool
    ensures { IsTrue result ↔ MayBeFiles words.now }
{
    words.iter().all(|w| may_be_file(w.as_str()))
}

/// The files that one, two or three words name; `None` for another number of words.
fn files_of(words: &[String]) -> Option<PlanFiles<'_>>
    ensures { MatchOption result ((w : PlanWords) → AreFiles (map string_bytes words.now) w → ⊥) (λ f. AreFiles (map string_bytes words.now) (named f)) }
{
    match words {
        [network] => Some(PlanFiles {
            network: network.as_str(),
            model: DEFAULT,
            failures: DEFAULT,
        }),
        [network, model] => Some(PlanFiles {
            network: network.as_str(),
            model: model.as_str(),
            failures: DEFAULT,
        }),
        [network, model, failures] => Some(PlanFiles {
            network: network.as_str(),
            model: model.as_str(),
            failures: failures.as_str(),
        }),
        _ => None,
    }
}

/// The files that four words name; `None` for another number of words.
fn four_of(words: &[String]) -> Option<FourFiles<'_>>
    ensures { MatchOption result ((w : PlanWords) (last : List ℕ) → AreFourFiles (map string_bytes words.now) w last → ⊥)
        (λ f. AreFourFiles (map string_bytes words.now) (named f.files) f.last.now) }
{
    match words {
        [network, model, failures, last] => Some(FourFiles {
            files: PlanFiles {
                network: network.as_str(),
                model: model.as_str(),
                failures: failures.as_str(),
            },
            last: last.as_str(),
        }),
        _ => None,
    }
}

/// Whether a word begins with a plus.
fn begins_with_plus(word: &str) -> bool
    ensures { result ≡ (slice_index word.now 0 == 43) }
{
    match word.as_bytes() {
        [] => false,
        [first, ..] => *first == b'+',
    }
}

/// The number that a word of at most `most` digits writes; `None` if it is no such word, or the number is 2^64 or more.
fn number_word(word: &str, most: usize) -> Option<u64>
    ensures { MatchOption result ((n : ℕ) → n < 2 ^ 64 → IsNumberWord most n word.now → ⊥) (λ n. IsNumberWord most n word.now) }
{
    if word.len() > most || begins_with_plus(word) {
        return None;
    }
    word.parse::<u64>().ok()
}

/// The sample of the seed and the number of nodes that these words write; `None` if they are no numbers in their ranges.
fn sample_words(seed: &str, nodes: &str) -> Option<SampleWords>
    ensures { MatchOption result ((s n : ℕ) → AreSample (seed.now ∷ nodes.now ∷ []) s n → ⊥) (λ s. AreSample (seed.now ∷ nodes.now ∷ []) s.seed s.nodes) }
{
    let seed = number_word(seed, 20)?;
    let nodes = number_word(nodes, 2)?;
    if 4 <= nodes && nodes <= 40 {
        Some(SampleWords {
            seed,
            nodes: nodes as u32,
        })
    } else {
        None
    }
}

/// The sample of two words; `None` if they aren't two, or no numbers in their ranges.
fn sample_of(words: &[String]) -> Option<SampleWords>
    ensures { MatchOption result ((seed nodes : ℕ) → AreSample (map string_bytes words.now) seed nodes → ⊥)
        (λ s. AreSample (map string_bytes words.now) s.seed s.nodes) }
{
    match words {
        [seed, nodes] => sample_words(seed.as_str(), nodes.as_str()),
        _ => None,
    }
}

/// The limit of splits that a word writes, and the files that the others name; `None` if they are no such words.
fn proof_words<'w>(limit: &str, files: &'w [String]) -> Option<ProofWords<'w>>
    ensures { MatchOption result ((n : ℕ) (w : PlanWords) → AreProof (limit.now ∷ map string_bytes files.now) n w → ⊥)
        (λ p. AreProof (limit.now ∷ map string_bytes files.now) p.limit (named p.files)) }
{
    let limit = number_word(limit, 4)?;
    let files = files_of(files)?;
    if 1 <= limit && limit <= 9999 {
        Some(ProofWords {
            limit: limit as u32,
            files,
        })
    } else {
        None
    }
}

/// The limit of splits in the first word, and the files that the others name; `None` if they are no such words.
fn proof_of(words: &[String]) -> Option<ProofWords<'_>>
    ensures { MatchOption result ((n : ℕ) (w : PlanWords) → AreProof (map string_bytes words.now) n w → ⊥)
        (λ p. AreProof (map string_bytes words.now) p.limit (named p.files)) }
{
    let (limit, files) = words.split_first()?;
    proof_words(limit.as_str(), files)
}

/// Whether a word is the name of a command.
fn is_named(word: &str, name: &str) -> bool
    ensures { IsTrue result ↔ (word.now ≡ name.now) }
{
    word == name
}

/// The command of this name with these words after it; `None` if they aren't words of such a command.
fn named_command<'w>(name: &str, words: &'w [String]) -> Option<Command<'w>>
    ensures { MatchOption result ((c : commands.Command) → IsNamed name.now (map string_bytes words.now) c → ⊥)
        (λ c. IsNamed name.now (map string_bytes words.now) (asked_command c)) }
{
    if is_named(name, "plan") {
        let files = files_of(words)?;
        return Some(Command::Plan(files));
    }
    if is_named(name, "session") {
        let files = four_of(words)?;
        return Some(Command::Session(files));
    }
    if is_named(name, "check") {
        let files = four_of(words)?;
        return Some(Command::Check(files));
    }
    if is_named(name, "trim") {
        let files = files_of(words)?;
        return Some(Command::Trim(files));
    }
    if is_named(name, "prove") {
        let words = proof_of(words)?;
        return Some(Command::Prove(words));
    }
    if is_named(name, "import") {
        let files = four_of(words)?;
        return Some(Command::Import(files));
    }
    if is_named(name, "sample") {
        let words = sample_of(words)?;
        return Some(Command::Sample(words));
    }
    None
}

/// The command that words ask for; `None` if they are no command. It takes time in their number and length, and no memory.
pub fn command_of(words: &[String]) -> Option<Command<'_>>
    ensures { MatchOption result ((c : commands.Command) → IsCommand words.now c → ⊥) (λ c. IsCommand words.now (asked_command c)) }
{
    let (name, files) = words.split_first()?;
    if !all_may_be_files(files) {
        return None;
    }
    named_command(name.as_str(), files)
}
