//! Exact fractions, and rows of whole numbers over one denominator.
#![tactic(auto)]

mod divisor;
pub mod fraction;
pub mod lowest;
mod mix;
pub mod numbers;
pub mod pivot;
pub mod row;
pub mod scale;
pub mod sum;
pub mod wide;

pub use fraction::{cmp, gcd, mul_div};
pub use lowest::lower;
pub use numbers::{first_negative, is_narrow, narrowed, size_of_den};
pub use pivot::combine;
pub use row::Row;
pub use scale::rescale;
pub use sum::{Sum, product};
pub use wide::WideNumber;
