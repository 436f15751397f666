ghost use Rattle.std.specs.Prelude.{◌≡◌, ◌≤◌, List, false, length};
ghost use Rattle.plan_terms.specs.Terms.{Demand};
ghost use Rattle.plan_report.specs.Terms.{KnownNames};
ghost use Rattle.snd_tokens.specs.Terms.{left};
ghost use Rattle.tree_reader.{specs.declared.tree.ReadTree.{ReadTree as Tree}, specs.CommentTexts.comments_from, specs.Trees.SpellsTree, specs.TreeWords.{begins_tree_line, has_tree_line, is_word_of, is_tree_word, line_words, node_words, verdict_words}};

use crate::lines::{NextLine, next_line};
use crate::nodes::{ABOVE, CHEAPEST, CLOSED, EMPTY, SPENT, SPLIT, STUCK};
use crate::reader::{BOX_CUT, LINE, TABLE};
use snd_tokens::{Cursor, Next};

/// Whether a cut or a further line begins with the word.
fn is_line_word(word: &[u8]) -> bool
    ensures { result ≡ is_word_of line_words word.now }
{
    word == BOX_CUT || word == LINE || word == TABLE
}

/// Whether a node begins with the word.
fn is_node_word(word: &[u8]) -> bool
    ensures { result ≡ is_word_of node_words word.now }
{
    word == SPLIT || word == CLOSED || word == EMPTY || word == SPENT || word == STUCK
}

/// Whether a verdict begins with the word.
fn is_verdict_word(word: &[u8]) -> bool
    ensures { result ≡ is_word_of verdict_words word.now }
{
    word == CHEAPEST || word == ABOVE
}

/// Whether a line of a branch tree begins with the word.
fn is_tree_word(word: &[u8]) -> bool
    ensures { result ≡ is_tree_word word.now }
{
    is_line_word(word) || is_node_word(word) || is_verdict_word(word)
}

/// Whether a comment begins as a line of a branch tree.
fn begins_tree_line(text: Cursor) -> bool
    ensures { result ≡ begins_tree_line (left text.entry) }
{
    let mut ahead = text;
    match ahead.next() {
        Next::Word(_, word) => is_tree_word(word),
        Next::Open(_) => false,
        Next::Close(_) => false,
        Next::End(_) => false,
    }
}

/// Whether one of the comments from a place on begins so.
fn one_begins(bytes: &[u8], from: u64) -> bool
    requires { from ≤ length bytes.now }
    ensures { result ≡ has_tree_line (comments_from from bytes.now) }
{
    let mut at = from;
    loop {
        match next_line(bytes, at) {
            NextLine::Comment(text, end) => {
                if begins_tree_line(text) {
                    return true;
                }
                at = end;
            }
            NextLine::Other(_) => return false,
            NextLine::End(_) => return false,
        }
    }
}

/// Whether one of the comment lines of a text from a place on begins as a line of a branch tree does: with `box-cut`, `line`, `table`,
/// `split`, `closed`, `empty`, `spent`, `stuck`, `cheapest` or `above`. Where none does, there is no tree for `read_tree`; other comments, as
/// those of a trimmed plan, begin with other words. It goes over the bytes once, and asks for no memory.
pub fn has_tree_line(bytes: &[u8], from: u64) -> bool
    requires { from ≤ length bytes.now }
    ensures value { result ≡ has_tree_line (comments_from from bytes.now) }
    // Where none does, no tree is spelled.
    ensures none { result ≡ false → (known : KnownNames) (demands : List Demand) (t : Tree) → SpellsTree known demands from bytes.now t → ⊥ }
{
    one_begins(bytes, from)
}
