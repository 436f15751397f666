use net_core::{Copied, Evidence, List, MasterColumn, NoMemory};
use plan_types::Share;
use simplex_core::SimplexFault;

/// A cut, by its place in the list, and its numerator in a certificate.
#[derive(Clone, Copy, Debug, PartialEq, Eq)]
pub struct Multiplier {
    pub cut: u32,
    pub num: u64,
}

/// The best certificate of some cuts, and a share that costs as much.
#[derive(Drop)]
pub struct Best {
    /// The denominator of the multipliers.
    pub den: u128,
    pub multipliers: List<Multiplier>,
    pub share: Share,
    /// The raw value is `raw_num / raw_den` units of the network, in lowest terms.
    pub raw_num: u128,
    pub raw_den: u128,
}

impl Copied for Best {
    fn copy(&self) -> Result<Best, NoMemory> {
        Ok(Best {
            den: self.den,
            multipliers: self.multipliers.copy()?,
            share: self.share.copy()?,
            raw_num: self.raw_num,
            raw_den: self.raw_den,
        })
    }
}

/// Why no best certificate is given.
#[derive(Drop)]
pub enum MasterFault {
    /// A number grew too wide.
    Wide(Evidence),
    /// The call ran out of memory.
    NoMemory,
}

impl Copied for MasterFault {
    fn copy(&self) -> Result<MasterFault, NoMemory> {
        Ok(match self {
            MasterFault::Wide(evidence) => MasterFault::Wide(evidence.copy()?),
            MasterFault::NoMemory => MasterFault::NoMemory,
        })
    }
}

impl From<NoMemory> for MasterFault {
    ghost use Rattle.std.specs.Prelude.{◌≡◌};
    ghost use Rattle.master_bound.specs.declared.answer.MasterFault.{MasterFault};

    ghost from_gives = { λ _ fault. fault ≡ MasterFault.NoMemory };

    fn from(_error: NoMemory) -> MasterFault {
        MasterFault::NoMemory
    }
}

impl From<SimplexFault<MasterColumn>> for MasterFault {
    ghost use Rattle.std.specs.Prelude.{◌≡◌};
    ghost use Rattle.master_bound.specs.Answers.{fault_of};

    ghost from_gives = { λ fault answer. answer ≡ fault_of fault };

    fn from(fault: SimplexFault<MasterColumn>) -> MasterFault {
        match fault {
            SimplexFault::Wide { basis, kind } => {
                MasterFault::Wide(Evidence::Master { basis, kind })
            }
            SimplexFault::NoMemory => MasterFault::NoMemory,
        }
    }
}
