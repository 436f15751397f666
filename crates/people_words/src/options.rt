ghost use Rattle.std.specs.Prelude.{◌≡◌, ◌↔◌, IsTrue, map, option_map};
ghost use Rattle.people_words.{specs.GivenWords.{TakesOptions, are_among, are_once, is_among, times_given, value_given}, specs.inner.Causes.given_option};

use crate::given::OptionValue;
use crate::kinds::same_words;

/// Whether an option is among these.
fn is_among(taken: &[&str], name: &str) -> bool
    ensures { result ≡ is_among (map (λ w. w.now) taken.now) name.now }
{
    for word in taken {
        if same_words(word, name) {
            return true;
        }
    }
    false
}

/// Whether each option that is given is among these.
fn are_among(options: &[OptionValue], taken: &[&str]) -> bool
    ensures { result ≡ are_among (map (λ w. w.now) taken.now) (map given_option options.now) }
{
    for given in options {
        if !is_among(taken, given.option) {
            return false;
        }
    }
    true
}

/// How often an option is given.
fn times_given(options: &[OptionValue], name: &str) -> usize
    ensures { result ≡ times_given (map given_option options.now) name.now }
{
    let mut times = 0;
    for given in options {
        if same_words(given.option, name) {
            times += 1;
        }
    }
    times
}

/// Whether each of these options is given once at most.
fn are_once(options: &[OptionValue], taken: &[&str]) -> bool
    ensures { result ≡ are_once (map (λ w. w.now) taken.now) (map given_option options.now) }
{
    for word in taken {
        if times_given(options, word) > 1 {
            return false;
        }
    }
    true
}

/// Whether each of these options is given once at most, and no other. It takes time in the options that are given.
pub(crate) fn takes_options(options: &[OptionValue], taken: &[&str]) -> bool
    ensures { IsTrue result ↔ TakesOptions (map (λ w. w.now) taken.now) (map given_option options.now) }
{
    are_among(options, taken) && are_once(options, taken)
}

/// The value that is given to an option, and none where it isn't given.
pub(crate) fn value_given<'w>(options: &[OptionValue<'w>], name: &str) -> Option<&'w str>
    ensures { option_map (λ w. w.now) result ≡ value_given (map given_option options.now) name.now }
{
    for given in options {
        if same_words(given.option, name) {
            return Some(given.value);
        }
    }
    None
}
