ghost use Rattle.plan_terms.{specs.Certificates.WeakDuality, specs.OwnBounds.OwnBoundHolds};

/// No able counts cost less than the bound of a certificate. The call does nothing, and takes no time.
pub fn weak_duality()
    ensures { WeakDuality }
{}

/// No able counts cost less than the own bound of a cut. The call does nothing, and takes no time.
pub fn own_bound_holds()
    ensures { OwnBoundHolds }
{}
