//! The tokens, numbers and header of a text in the style of SNDlib's native format.
#![tactic(auto)]

pub mod amounts;
pub mod cursor;
mod digits;
mod find;
pub mod header;
pub mod lexeme;
pub mod token;
pub mod whole_number;

pub use amounts::{NumberFault, amount, money, units};
pub use cursor::Cursor;
pub use digits::are_digits;
pub use header::after_header;
pub use lexeme::Next;
pub use token::{Token, TokenKind, next_token};
pub use whole_number::{WholeFault, whole};
