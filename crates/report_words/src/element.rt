ghost use Rattle.std.specs.Prelude.{◌≡◌, ◌<◌, ℕ, List, [], Option, Ok, IfOk, IsTrue};
ghost use Rattle.snd_tokens.specs.Terms.{Text, left, size};
ghost use Rattle.text_kit.specs.Terms.{Ending, Parenthesis, Passes, ReadsAs, TakesElement, Reading, list_at};
ghost use Rattle.report_words.specs.declared.fault.ReportKind.{ReportKind};

use crate::fault::{ReportKind, ReportRefusal};
use net_core::{List, NoMemory};
use snd_tokens::Cursor;
use std::alloc::Global;
use text_kit::refusal::bad;
use text_kit::steps::closes;

/// The elements of a list in a text, up to what ends it.
pub trait Element {
    type Item: Drop;

    /// An element after earlier ones.
    ghost reading: { Self → List Self.Item → Reading ReportKind Self.Item };

    /// What is wrong with a list that ends.
    ghost fault: { Self → List Self.Item → Option ReportKind };

    /// Takes an element after these ones. A fault of the text is told at its place.
    fn take(
        &self,
        alloc: Global,
        sofar: &[Self::Item],
        text: &mut Cursor,
    ) -> Result<Self::Item, ReportRefusal>
        ensures { ReadsAs (λ x. x) result (left text.new) (reading self.now sofar.now (left text.old)) };

    /// What is wrong with a list that ends.
    fn fault(&self, all: &[Self::Item]) -> Option<ReportKind>
        ensures { result ≡ fault self.now all.now };
}

/// What a list in a text ends with.
pub trait ListEnd {
    /// What it is in a text.
    ghost ending: { Self → Ending };

    /// Takes it if it is next, and gives its place.
    fn pass(&self, text: &mut Cursor) -> Option<u64>
        ensures { Passes (ending self.now) result (left text.old) (left text.new) };
}

/// A closing parenthesis.
#[derive(Clone, Copy)]
struct ClosingParenthesis;

impl ListEnd for ClosingParenthesis {
    ghost use Rattle.text_kit.specs.Terms.{Parenthesis};

    ghost ending = { λ _. Parenthesis };

    fn pass(&self, text: &mut Cursor) -> Option<u64> {
        closes(text)
    }
}

/// Takes one element more, and says whether there was one.
fn take_element<E: Element, S: ListEnd>(
    alloc: Global,
    element: &E,
    end: &S,
    all: &mut Vec<E::Item>,
    text: &mut Cursor,
) -> Result<bool, ReportRefusal>
    requires { (sofar : List E.Item) (t : Text) (x : E.Item) (rest : Text) → E.reading element.now sofar t ≡ Ok (x, rest) → size rest < size t }
    ensures turn { TakesElement result
        (list_at (S.ending end.now) (E.fault element.now) (E.reading element.now) all.old.items (left text.old))
        (list_at (S.ending end.now) (E.fault element.now) (E.reading element.now) all.new.items (left text.new))
        (Ok (all.new.items, left text.new)) }
    ensures shorter { IfOk result (λ more. IsTrue more → size (left text.new) < size (left text.old)) }
{
    if let Some(at) = end.pass(text) {
        if let Some(kind) = element.fault(all.as_slice()) {
            return Err(bad(at, kind));
        }
        return Ok(false);
    }
    let one = element.take(alloc, all.as_slice(), text)?;
    let Ok(()) = all.push(one) else {
        return Err(NoMemory.into());
    };
    Ok(true)
}

/// Takes elements up to what ends them, and that with them.
///
/// The first fault of an element ends it, and so does what is wrong with the list as a whole, which is told at the place of its
/// end. It takes the time of its elements' readings. While it grows, the list may have memory for twice its elements; in the end
/// it keeps memory for no more than these.
pub fn list_to<E: Element, S: ListEnd>(
    alloc: Global,
    element: &E,
    end: &S,
    text: &mut Cursor,
) -> Result<List<E::Item>, ReportRefusal>
    requires { (sofar : List E.Item) (t : Text) (x : E.Item) (rest : Text) → E.reading element.now sofar t ≡ Ok (x, rest) → size rest < size t }
    ensures { ReadsAs (λ l. l) result (left text.new) (list_at (S.ending end.now) (E.fault element.now) (E.reading element.now) [] (left text.old)) }
{
    let mut all = Vec::new(alloc);
    while take_element(alloc, element, end, &mut all, text)? {}
    all.shrink_to_fit();
    Ok(List::from_vec(all))
}

/// Takes elements, up to the closing parenthesis, after an opening one that is taken already. It costs what `list_to` does.
pub fn list<E: Element>(
    alloc: Global,
    element: &E,
    text: &mut Cursor,
) -> Result<List<E::Item>, ReportRefusal>
    requires { (sofar : List E.Item) (t : Text) (x : E.Item) (rest : Text) → E.reading element.now sofar t ≡ Ok (x, rest) → size rest < size t }
    ensures { ReadsAs (λ l. l) result (left text.new) (list_at Parenthesis (E.fault element.now) (E.reading element.now) [] (left text.old)) }
{
    list_to(alloc, element, &ClosingParenthesis, text)
}
