ghost use Rattle.std.{specs.Prelude.◌≡◌, specs.Str.bytes_eq};
ghost use Rattle.people_words.specs.GivenWords.{is_flag, is_plain_word, is_valued, option_kind, word_kind};

/// What a word is to those after it.
#[derive(Clone, Copy, PartialEq, Eq)]
pub(crate) enum WordKind {
    /// A command's name, or a file's.
    Name,
    /// After it all words are names.
    End,
    /// An option without a value.
    Flag,
    /// An option whose value is the next word.
    Valued,
    /// An option that there isn't.
    Unknown,
}

/// Whether two words are the same.
pub(crate) fn same_words(word: &str, other: &str) -> bool
    ensures { result ≡ bytes_eq word.now other.now }
{
    word == other
}

/// Whether a word begins like no option: a minus alone, or one that doesn't begin with a minus.
fn is_plain_word(word: &str) -> bool
    ensures { result ≡ is_plain_word word.now }
{
    let bytes = word.as_bytes();
    bytes.len() <= 1 || bytes[0] != b'-'
}

/// Whether a word is an option without a value.
fn is_flag(word: &str) -> bool
    ensures { result ≡ is_flag word.now }
{
    same_words(word, "--report") || same_words(word, "--quiet") || same_words(word, "--svg")
}

/// Whether a word is an option whose value is the next word, whatever that is, so that `--model -x` names a file.
fn is_valued(word: &str) -> bool
    ensures { result ≡ is_valued word.now }
{
    same_words(word, "--model")
        || same_words(word, "--failures")
        || same_words(word, "--survive")
        || same_words(word, "--splits")
        || same_words(word, "--csv")
        || same_words(word, "--state")
}

/// What an option is to the word after it, whichever command takes it. There are no short options, and none with its value after `=`.
fn option_kind(word: &str) -> WordKind
    ensures { result ≡ option_kind word.now }
{
    if is_flag(word) {
        return WordKind::Flag;
    }
    if is_valued(word) {
        return WordKind::Valued;
    }
    WordKind::Unknown
}

/// What a word is to those after it.
pub(crate) fn kind_of(word: &str) -> WordKind
    ensures { result ≡ word_kind word.now }
{
    if is_plain_word(word) {
        return WordKind::Name;
    }
    if same_words(word, "--") {
        return WordKind::End;
    }
    option_kind(word)
}
