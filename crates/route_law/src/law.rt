ghost use Rattle.route_law.{specs.Divisions.{DividedAreCarried, DividedArePriced, DividedAreViolated, DividedAreWide}, specs.Laws.{BasisFlowsCarry, LinkPricesAreViolated, ViolatedCarriesNothing, ZerosAndOnesArePriced}};

/// Where the value of a best basis of the routing program isn't below the sum of the needs, its flows carry the demands. The call does nothing, and
/// takes no time.
pub fn basis_flows_carry()
    ensures { BasisFlowsCarry }
{}

/// Where the value is below the sum of the needs, the capacities violate the cut of the link prices. The call does nothing, and takes no time.
pub fn link_prices_are_violated()
    ensures { LinkPricesAreViolated }
{}

/// Capacities that violate a cut of a state carry the demands there in no routing, whatever its denominator. The call does nothing, and takes no
/// time.
pub fn violated_carries_nothing()
    ensures { ViolatedCarriesNothing }
{}

/// Every vector of at most 256 zeros and ones with a one is priced with nothing named: in a network of two nodes, a link for each
/// number and one demand, it is the link prices of a best basis. The call does nothing, and takes no time.
pub fn zeros_and_ones_are_priced()
    ensures { ZerosAndOnesArePriced }
{}

/// Capacities violate a cut exactly where they do over a multiple of their scale. The call does nothing, and takes no time.
pub fn divided_are_violated()
    ensures { DividedAreViolated }
{}

/// A routing that carries the demands within capacities carries them over a multiple of the scale, with flows that are as
/// many times as large. The call does nothing, and takes no time.
pub fn divided_are_carried()
    ensures { DividedAreCarried }
{}

/// Evidence that a number is too wide is evidence over a multiple of the scale, with its basis and of its kind. The call does nothing, and takes no
/// time.
pub fn divided_are_wide()
    ensures { DividedAreWide }
{}

/// Lengths are priced at capacities exactly where they are over a multiple of the scale. The call does nothing, and takes no time.
pub fn divided_are_priced()
    ensures { DividedArePriced }
{}
