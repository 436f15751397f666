/// A report of a plan of the triangle, where each link fails alone.
pub(crate) const REPORT: &str = "?planner report; version: 1
NOTES ( ) JOURNAL ( ( 1 cut 0 ) ( 2 cut 1 ) ) POOL ( ( 0 state 3 right 24000 ( 1 1 0 ) ) ( 1 state 1 right 12000 ( 0 0 1 ) ) )
OUTCOMES ( PLAN ( caller 1 plan 1 version 0 position 0
  DEMANDS ( A ( A C ) 12.000 )
  cost 30.000 bound 20.000 raw 18000 1
  MODULES ( AB ( 2 ) BC ( 2 ) AC ( 2 ) )
  CERTIFICATE ( 2 ( 1 pool 0 right 24000 ) ( 1 pool 1 right 12000 ) )
  ROUTES (
    state 0 none 1 ( A 12000 ( AC ) )
    state 1 AB 1 ( A 12000 ( AC ) )
    state 2 BC 1 ( A 12000 ( AC ) )
    state 3 AC 1 ( A 12000 ( AB BC ) )
  )
  loose cuts
) )
";

/// A report of a plan of the triangle, where each link fails alone, with another cost.
pub(crate) const DEARER: &str = "?planner report; version: 1
NOTES ( ) JOURNAL ( ( 1 cut 0 ) ( 2 cut 1 ) ) POOL ( ( 0 state 3 right 24000 ( 1 1 0 ) ) ( 1 state 1 right 12000 ( 0 0 1 ) ) )
OUTCOMES ( PLAN ( caller 1 plan 1 version 0 position 0
  DEMANDS ( A ( A C ) 12.000 )
  cost 31.000 bound 20.000 raw 18000 1
  MODULES ( AB ( 2 ) BC ( 2 ) AC ( 2 ) )
  CERTIFICATE ( 2 ( 1 pool 0 right 24000 ) ( 1 pool 1 right 12000 ) )
  ROUTES (
    state 0 none 1 ( A 12000 ( AC ) )
    state 1 AB 1 ( A 12000 ( AC ) )
    state 2 BC 1 ( A 12000 ( AC ) )
    state 3 AC 1 ( A 12000 ( AB BC ) )
  )
  loose cuts
) )
";

/// A report with a section left out.
pub(crate) const SHORT: &str = "?planner report; version: 1
NOTES ( ) POOL ( )
";

/// A report without a plan.
pub(crate) const EMPTY: &str = "?planner report; version: 1
NOTES ( ) JOURNAL ( ) POOL ( ) OUTCOMES ( )
";

/// The cuts of a tree of the triangle, one for each node set in each state that has one, and its nodes: two modules on each link are cheapest.
pub(crate) const TREE: &str = "# box-cut 0 0 12000 1 0 1
# box-cut 1 0 12000 0 1 1
# box-cut 2 2 12000 0 0 1
# box-cut 3 3 24000 1 1 0
# box-cut 4 1 12000 0 0 1
# box-cut 5 2 12000 1 0 1
# box-cut 6 3 12000 1 0 0
# box-cut 7 3 12000 0 1 0
# split AC 0 1
# empty 4
# split AB 0 1
# empty 6
# split BC 0 0
# empty 7
# closed 2 1 7
# cheapest
";
