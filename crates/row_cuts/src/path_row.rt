use net_core::{List, RouteColumn};

/// A column beside the keys of a basis of key paths, with its row of the inverse.
#[derive(Drop)]
pub struct PathRow {
    /// The slack of a link, or a demand along one of its paths.
    pub column: RouteColumn,
    /// Whole numbers over `den`, one for each link.
    pub nums: List<i64>,
    pub den: i64,
}
