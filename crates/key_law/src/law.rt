ghost use Rattle.key_law.specs.Laws.{FullRows, KeptOptimum, TurnsFall, TurnsReach};

use net_core::RouteColumn;

/// A row of the block, with the demands' numbers that the keys give it, is a row of the whole basis. The call does nothing, and takes no time.
pub fn full_rows()
    ensures { FullRows RouteColumn }
{}

/// Where no column gains, what is kept gives an optimum of the whole program. The call does nothing, and takes no time.
pub fn kept_optimum()
    ensures { KeptOptimum RouteColumn }
{}

/// Turns lead to bases that gaining steps reach. The call does nothing, and takes no time.
pub fn turns_reach()
    ensures { TurnsReach RouteColumn }
{}

/// Turns end: a measure falls that needs no bound of the value. The call does nothing, and takes no time.
pub fn turns_fall()
    ensures { TurnsFall RouteColumn }
{}
