use crate::decimal::thousandths;
use net_core::{List, NoMemory};
use snd_tokens::{Cursor, Next};
use std::alloc::Global;

/// Where a node is, in thousandths of what the file's numbers count: of degrees to the east and to the north in SNDlib's networks.
#[derive(Clone, Copy, Debug, PartialEq, Eq)]
pub struct Place {
    pub x: i32,
    pub y: i32,
}

/// What the words inside a node's parentheses say, as far as they are read: the last two decimals, and how many words there are.
#[derive(Clone, Copy)]
struct Inside {
    first: Option<i32>,
    second: Option<i32>,
    words: u64,
}

/// A word without a comma at its end.
fn without_comma(word: &[u8]) -> &[u8] {
    match word {
        [front @ .., b','] => front,
        _ => word,
    }
}

impl Inside {
    /// With one word more.
    fn with(self, word: &[u8]) -> Inside {
        Inside {
            first: self.second,
            second: thousandths(without_comma(word)),
            words: self.words.saturating_add(1),
        }
    }

    /// The place, if the words are two decimals.
    fn place(self) -> Option<Place> {
        if self.words != 2 {
            return None;
        }
        Some(Place {
            x: self.first?,
            y: self.second?,
        })
    }
}

/// The word before the section of nodes.
const NODES: &[u8] = b"NODES";

/// Goes past the opening parenthesis of the section of nodes. It says whether there is one.
fn find_nodes(text: &mut Cursor) -> bool {
    let mut depth = 0u64;
    let mut is_named = false;
    for _ in 0..u64::MAX {
        match text.next() {
            Next::Word(_, word) => is_named = depth == 0 && word == NODES,
            Next::Open(_) if is_named => return true,
            Next::Open(_) => depth = depth.saturating_add(1),
            Next::Close(_) => depth = depth.saturating_sub(1),
            Next::End(_) => break,
        }
    }
    false
}

/// The place that the words up to the closing parenthesis say: two decimals and nothing else.
fn place_inside(text: &mut Cursor) -> Option<Place> {
    let mut inside = Inside {
        first: None,
        second: None,
        words: 0,
    };
    let mut depth = 0u64;
    for _ in 0..u64::MAX {
        match text.next() {
            Next::Word(_, word) => inside = inside.with(word),
            Next::Open(_) => depth = depth.saturating_add(1),
            Next::Close(_) if depth > 0 => depth -= 1,
            Next::Close(_) | Next::End(_) => break,
        }
    }
    inside.place()
}

/// Says where the last node is.
fn set_last(places: &mut List<Option<Place>>, place: Option<Place>) {
    if let Some(last) = places.items_mut().last_mut() {
        *last = place;
    }
}

/// Puts the places of nodes last, up to the parenthesis that closes their section.
fn put_places(places: &mut List<Option<Place>>, text: &mut Cursor) -> Result<(), NoMemory> {
    for _ in 0..u64::MAX {
        match text.next() {
            Next::Word(..) => places.push(None)?,
            Next::Open(_) => set_last(places, place_inside(text)),
            Next::Close(_) | Next::End(_) => break,
        }
    }
    Ok(())
}

/// The places of the nodes of a network's file, in its order; none of a node that has no coordinates, or whose coordinates aren't two decimals
/// between -2,147,483.647 and 2,147,483.647. The file is one that the planner's reader takes. It takes time in the bytes, and memory for the places.
pub fn node_places(alloc: Global, bytes: &[u8]) -> Result<List<Option<Place>>, NoMemory> {
    let mut places = List::new(alloc);
    let mut text = Cursor::new(bytes, 0);
    if find_nodes(&mut text) {
        put_places(&mut places, &mut text)?;
    }
    Ok(places)
}
