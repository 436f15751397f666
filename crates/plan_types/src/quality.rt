use net_core::{Copied, Evidence, List, NoMemory, Routing};

/// Fractional capacities: link e has `units(e) / scale` of its unit pair, the capacity and cost of its module of least cost
/// per capacity in lowest terms.
#[derive(Drop)]
pub struct Share {
    pub scale: u64,
    /// One number for each link.
    pub units: List<u64>,
}

/// A share that costs the raw value of the plan's certificate, and a routing within it for each state, in state order.
#[derive(Drop)]
pub struct Fractional {
    pub share: Share,
    pub routings: List<Routing>,
}

/// Why a better bound was not found.
#[derive(Drop)]
pub enum Cause {
    /// A number grew too wide.
    Wide(Evidence),
    /// There was no room for a further cut.
    Cuts,
}

/// How good the bound of a plan is.
#[derive(Drop)]
pub enum Quality {
    /// No metric inequalities give a greater raw value.
    Tight(Fractional),
    /// The search for a better bound ended early.
    Loose(Cause),
}

impl Copied for Share {
    fn copy(&self) -> Result<Share, NoMemory> {
        Ok(Share {
            scale: self.scale,
            units: self.units.copy()?,
        })
    }
}

impl Copied for Fractional {
    fn copy(&self) -> Result<Fractional, NoMemory> {
        Ok(Fractional {
            share: self.share.copy()?,
            routings: self.routings.copy()?,
        })
    }
}

impl Copied for Cause {
    fn copy(&self) -> Result<Cause, NoMemory> {
        Ok(match self {
            Cause::Wide(evidence) => Cause::Wide(evidence.copy()?),
            Cause::Cuts => Cause::Cuts,
        })
    }
}

impl Copied for Quality {
    fn copy(&self) -> Result<Quality, NoMemory> {
        Ok(match self {
            Quality::Tight(fractional) => Quality::Tight(fractional.copy()?),
            Quality::Loose(cause) => Quality::Loose(cause.copy()?),
        })
    }
}
