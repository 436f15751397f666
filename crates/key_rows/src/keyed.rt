use checked_fraction::Row;
use net_core::{List, RouteColumn};

/// A basis by its keys. There is a row for each link, and those of the demands aren't kept.
///
/// Each column has a place; roles say what each place is for: the first roles are the rows of links, and then
/// each demand has one, whose place holds its key.
#[derive(Drop)]
pub struct Keyed {
    /// The columns by place.
    pub names: List<RouteColumn>,
    /// The places by role.
    pub places: List<u32>,
    /// The demand of each row's column. The number of demands means none.
    pub owners: List<u32>,
    /// The rows of the inverse: the link entries.
    pub rows: List<Row>,
    /// The prices of the links.
    pub prices: Row,
    /// The prices of the demands, over the denominator of those of the links.
    pub duals: List<i64>,
    /// The bounds of the links, and then those of the demands.
    pub bounds: List<i64>,
    /// What the keys, each taken as often as its demand's bound, leave of each link.
    pub rest: List<i128>,
    /// The value of each row, over its denominator.
    pub values: List<u128>,
    /// Room for the products of the rows with a column.
    pub products: List<i128>,
}

/// Room for what is worked out of keys on the way.
#[derive(Drop)]
pub struct Room {
    /// What brings the rows of a demand over one denominator.
    pub weights: List<i64>,
    /// The numbers of a key's row before it is in lowest terms.
    pub raw: List<i128>,
    /// A row.
    pub spare: Row,
    /// Another row.
    pub other: Row,
}
