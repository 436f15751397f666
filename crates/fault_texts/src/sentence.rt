/// What is wrong, and what helps.
#[derive(Clone, Copy, Debug, PartialEq, Eq)]
pub struct Sentence {
    /// What is wrong.
    pub wrong: &'static str,
    /// What was expected, or what to do.
    pub help: &'static str,
}
