use crate::keyed::Keyed;
use net_core::{LinkId, RouteColumn};

/// A column that enters a basis, whose products with the rows are known.
#[derive(Clone, Copy)]
pub(crate) struct Entrant<'a> {
    pub(crate) keyed: &'a Keyed,
    /// The column.
    pub(crate) name: &'a RouteColumn,
    /// The path of its demand's key.
    pub(crate) key: &'a [LinkId],
}
