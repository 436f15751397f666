use net_core::{Copied, CutLine, List, NoMemory};

/// Where a cut of a certificate is: in the pool, at this index, or in the certificate alone.
#[derive(Clone, Copy, Debug, PartialEq, Eq)]
pub enum Spot {
    Pool(u32),
    Local,
}

/// A line of a certificate: a cut with its right side at the plan's demands, and its numerator over the certificate's
/// denominator.
#[derive(Drop)]
pub struct CertLine {
    pub num: u64,
    pub spot: Spot,
    pub cut: CutLine,
}

/// The certificate of a lower bound: cuts with numerators over one denominator. It is valid where no module's price along
/// the cuts exceeds its cost (weak duality).
#[derive(Drop)]
pub struct Certificate {
    pub den: u128,
    pub lines: List<CertLine>,
}

impl Copied for CertLine {
    fn copy(&self) -> Result<CertLine, NoMemory> {
        Ok(CertLine {
            num: self.num,
            spot: self.spot,
            cut: self.cut.copy()?,
        })
    }
}

impl Copied for Certificate {
    fn copy(&self) -> Result<Certificate, NoMemory> {
        Ok(Certificate {
            den: self.den,
            lines: self.lines.copy()?,
        })
    }
}
