/// A network with names of several letters, so that other words may be near them.
pub(crate) const NETWORK: &[u8] = b"?SNDlib native format; type: network; version: 1.0
NODES ( Aachen Berlin Celle )
LINKS (
  AB ( Aachen Berlin ) 0 0 0 0 ( 10.00 5.00 )
  BC ( Berlin Celle ) 0 0 0 0 ( 10.00 5.00 )
  West ( Aachen Celle ) 0 0 0 0 ( 10.00 5.00 )
)
DEMANDS (
  D1 ( Aachen Celle ) 1 12.00 UNLIMITED
)
";

pub(crate) const MODEL: &[u8] = b"?SNDlib native format; type: model; version: 1.0
DEMAND_MODEL = UNDIRECTED
LINK_MODEL = UNDIRECTED
LINK_CAPACITY_MODEL = MODULAR_CAPACITIES
FIXED_CHARGE_MODEL = NO
ROUTING_MODEL = CONTINUOUS
ADMISSIBLE_PATH_MODEL = ALL_PATHS
HOP_LIMIT_MODEL = NO
SURVIVABILITY_MODEL = UNRESTRICTED_FLOW_RECONFIGURATION
";

pub(crate) const LIST: &[u8] = b"?planner failures; version: 1
FAILURES (
  duct ( AB BC )
  far ( West )
)
";
