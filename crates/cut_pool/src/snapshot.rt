use net_core::{Copied, CutLine, Demands, List, NoMemory};

/// A board at one position of its history: the version and the demands there, and the pooled cuts with their right sides.
#[derive(Drop)]
pub struct Snapshot {
    pub version: u64,
    pub position: u64,
    pub demands: Demands,
    pub cuts: List<CutLine>,
}

impl Copied for Snapshot {
    fn copy(&self) -> Result<Snapshot, NoMemory> {
        Ok(Snapshot {
            version: self.version,
            position: self.position,
            demands: self.demands.copy()?,
            cuts: self.cuts.copy()?,
        })
    }
}
