ghost use Rattle.master_law.specs.Laws.{BasisLinesCertify, BoundRises, LeastShareViolatesNone, NoCertificateIsGreater, RawValueIsShareCost, UnitPairsAreOne};

/// Each link of a network has one unit pair. The call does nothing, and takes no time.
pub fn unit_pairs_are_one()
    ensures { UnitPairsAreOne }
{}

/// A least share of cuts violates none of them. The call does nothing, and takes no time.
pub fn least_share_violates_none()
    ensures { LeastShareViolatesNone }
{}

/// The cuts of a best basis of the master program, with their amounts, are a valid certificate. The call does nothing, and takes no time.
pub fn basis_lines_certify()
    ensures { BasisLinesCertify }
{}

/// The raw value of that certificate is the cost of the share of the basis, and isn't below 0. The call does nothing, and takes no time.
pub fn raw_value_is_share_cost()
    ensures { RawValueIsShareCost }
{}

/// The bound of that certificate is at least the own bound of each cut of the list. The call does nothing, and takes no time.
pub fn bound_rises()
    ensures { BoundRises }
{}

/// No certificate over the cuts of a list has a greater raw value than a least share of them costs. The call does nothing, and takes no time.
pub fn no_certificate_is_greater()
    ensures { NoCertificateIsGreater }
{}
