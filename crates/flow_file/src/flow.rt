use net_core::{Counts, List};
use path_split::Arc;

/// Flow of a demand on a link, by the demand's place.
#[derive(Clone, Copy, Debug, PartialEq, Eq)]
pub struct LinkFlow {
    pub demand: u32,
    pub arc: Arc,
}

/// A solution of another tool: counts of modules for each link, and flows for each state.
#[derive(Drop)]
pub struct FlowFile {
    pub counts: Counts,
    pub flows: List<List<LinkFlow>>,
}
