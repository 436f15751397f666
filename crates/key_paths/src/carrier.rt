use net_core::Path;

/// A demand, by its place, along a path.
#[derive(Drop)]
pub(crate) struct Carrier {
    pub(crate) demand: u32,
    pub(crate) path: Path,
}
