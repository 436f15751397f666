ghost use Rattle.std.specs.Prelude.{◌≡◌, ◌<◌, false, IsTrue, IfOk, Ok, Err};
ghost use Rattle.snd_tokens.specs.Terms.{left, size};
ghost use Rattle.text_kit.specs.Terms.{ReadsAs, TakesElement, each_at, step_at, word_at};
ghost use Rattle.sndlib_reader.specs.Reading.{is_paths, known_name, path_line_at, native_path_at, path_name, paths_at, some_at};

use crate::fault::{Limited, ReadKind, ReadRefusal};
use crate::names::Names;
use crate::words::known;
use snd_tokens::{Cursor, Next};
use text_kit::names::is_long;
use text_kit::refusal::bad;
use text_kit::steps::{closes, end, open, placed, word};

const PATHS: &[u8] = b"ADMISSIBLE_PATHS";

/// Takes one link more of a path, and says whether there was one.
fn take_link(links: &Names, text: &mut Cursor) -> Result<bool, ReadRefusal>
    ensures turn { let costed_links_at = each_at (word_at ReadKind.Token ReadKind.Ended (known_name links.now)) in
        TakesElement result (costed_links_at (left text.old)) (costed_links_at (left text.new)) (Ok (tt, left text.new)) }
    ensures shorter { IfOk result (λ more. IsTrue more → size (left text.new) < size (left text.old)) }
{
    if let Some(_) = closes(text) {
        return Ok(false);
    }
    known(links, text)?;
    Ok(true)
}

/// Takes the links of a path between parentheses; `links` are the names of all links.
#[tactic(auto, unfolding(crate::specs::Reading::some_at))]
fn path_links(links: &Names, text: &mut Cursor) -> Result<(), ReadRefusal>
    ensures { ReadsAs (λ _. tt) result (left text.new) (some_at (word_at ReadKind.Token ReadKind.Ended (known_name links.now)) (left text.old)) }
{
    open(ReadKind::Token, ReadKind::Ended, text)?;
    known(links, text)?;
    while take_link(links, text)? {}
    Ok(())
}

/// Tests a word as any name.
fn any_name(word: &[u8]) -> Result<(), ReadKind>
    ensures { result ≡ path_name word.now }
{
    if is_long(word) {
        return Err(ReadKind::Limit(Limited::Name));
    }
    Ok(())
}

/// Takes a path's name, which may be any name.
fn path_name(text: &mut Cursor) -> Result<(), ReadRefusal>
    ensures { ReadsAs (λ _. tt) result (left text.new) (word_at ReadKind.Token ReadKind.Ended path_name (left text.old)) }
{
    let (at, word) = word(ReadKind::Token, ReadKind::Ended, text)?;
    placed(at, any_name(word))
}

/// Takes a path: its name and its links.
fn path(links: &Names, text: &mut Cursor) -> Result<(), ReadRefusal>
    ensures { ReadsAs (λ _. tt) result (left text.new) (native_path_at links.now (left text.old)) }
{
    path_name(text)?;
    path_links(links, text)
}

/// Takes one path more of a demand, and says whether there was one.
fn take_path(links: &Names, text: &mut Cursor) -> Result<bool, ReadRefusal>
    ensures turn { TakesElement result (each_at (native_path_at links.now) (left text.old))
        (each_at (native_path_at links.now) (left text.new)) (Ok (tt, left text.new)) }
    ensures shorter { IfOk result (λ more. IsTrue more → size (left text.new) < size (left text.old)) }
{
    if let Some(_) = closes(text) {
        return Ok(false);
    }
    path(links, text)?;
    Ok(true)
}

/// Takes the paths of a demand between parentheses.
#[tactic(auto, unfolding(crate::specs::Reading::some_at))]
fn demand_paths(links: &Names, text: &mut Cursor) -> Result<(), ReadRefusal>
    ensures { ReadsAs (λ _. tt) result (left text.new) (some_at (native_path_at links.now) (left text.old)) }
{
    open(ReadKind::Token, ReadKind::Ended, text)?;
    path(links, text)?;
    while take_path(links, text)? {}
    Ok(())
}

/// Takes a line: a demand's name and its paths.
fn line(links: &Names, demands: &Names, text: &mut Cursor) -> Result<(), ReadRefusal>
    ensures { ReadsAs (λ _. tt) result (left text.new) (path_line_at links.now demands.now (left text.old)) }
{
    known(demands, text)?;
    demand_paths(links, text)
}

/// Takes one line more, and says whether there was one.
fn take_line(links: &Names, demands: &Names, text: &mut Cursor) -> Result<bool, ReadRefusal>
    ensures turn { TakesElement result (each_at (path_line_at links.now demands.now) (left text.old))
        (each_at (path_line_at links.now demands.now) (left text.new)) (Ok (tt, left text.new)) }
    ensures shorter { IfOk result (λ more. IsTrue more → size (left text.new) < size (left text.old)) }
{
    if let Some(_) = closes(text) {
        return Ok(false);
    }
    line(links, demands, text)?;
    Ok(true)
}

/// Takes lines, up to the closing parenthesis.
fn lines(links: &Names, demands: &Names, text: &mut Cursor) -> Result<(), ReadRefusal>
    ensures { ReadsAs (λ _. tt) result (left text.new) (each_at (path_line_at links.now demands.now) (left text.old)) }
{
    while take_line(links, demands, text)? {}
    Ok(())
}

/// Tests a word as that of the section of paths.
fn is_paths(word: &[u8]) -> Result<bool, ReadKind>
    ensures { result ≡ is_paths word.now }
{
    if word == PATHS {
        return Ok(true);
    }
    Err(ReadKind::Section)
}

/// Takes the word of the section of paths, or finds the end.
fn paths_word(text: &mut Cursor) -> Result<bool, ReadRefusal>
    ensures { ReadsAs (λ b. b) result (left text.new) (step_at is_paths (Err ReadKind.Section) (Err ReadKind.Section) (Ok false) (left text.old)) }
{
    match text.next() {
        Next::Word(at, word) => placed(at, is_paths(word)),
        Next::Open(at) | Next::Close(at) => Err(bad(at, ReadKind::Section)),
        Next::End(_) => Ok(false),
    }
}

/// Takes the section of admissible paths and finds the end, or finds the end at once. Links and
/// demands are given by their names.
#[tactic(auto, unfolding(crate::specs::Reading::after_paths))]
pub(crate) fn paths(links: &Names, demands: &Names, text: &mut Cursor) -> Result<(), ReadRefusal>
    ensures { ReadsAs (λ _. tt) result (left text.new) (paths_at links.now demands.now (left text.old)) }
{
    if !paths_word(text)? {
        return Ok(());
    }
    open(ReadKind::Section, ReadKind::Ended, text)?;
    lines(links, demands, text)?;
    end(ReadKind::Section, text)
}
