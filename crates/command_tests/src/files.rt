use crate::measured::MEASURED;
use net_core::List;
use outside_io::MemFile;
use std::alloc::Global;
use worked_networks::{File, put_files};

pub(crate) const TRIANGLE: &[u8] = b"?SNDlib native format; type: network; version: 1.0
NODES ( A B C )
LINKS (
  AB ( A B ) 0 0 0 0 ( 10.00 5.00 )
  BC ( B C ) 0 0 0 0 ( 10.00 5.00 )
  AC ( A C ) 0 0 0 0 ( 10.00 5.00 )
)
DEMANDS (
  D1 ( A C ) 1 12.00 UNLIMITED
)
";

const FIXED_TRIANGLE: &[u8] = b"?SNDlib native format; type: network; version: 1.0
NODES ( A B C )
LINKS ( AB ( A B ) 20.00 0 0 0 ( 10.00 5.00 ) BC ( B C ) 20.00 0 0 0 ( 10.00 5.00 ) AC ( A C ) 20.00 0 0 0 ( 10.00 5.00 ) )
DEMANDS ( D1 ( A C ) 1 12.00 UNLIMITED )
";

const PARALLEL: &[u8] = b"?SNDlib native format; type: network; version: 1.0
NODES ( A B )
LINKS ( L1 ( A B ) 0 0 0 0 ( 1.00 1.00 ) L2 ( A B ) 0 0 0 0 ( 1.00 1.00 ) L3 ( A B ) 0 0 0 0 ( 1.00 1.00 ) )
DEMANDS ( D1 ( A B ) 1 10.00 UNLIMITED )
";

const FOUR_PARALLEL: &[u8] = b"?SNDlib native format; type: network; version: 1.0
NODES ( A B )
LINKS ( L1 ( A B ) 0 0 0 0 ( 1.00 1.00 ) L2 ( A B ) 0 0 0 0 ( 1.00 1.00 ) L3 ( A B ) 0 0 0 0 ( 1.00 1.00 ) L4 ( A B ) 0 0 0 0 ( 1.00 1.00 ) )
DEMANDS ( D1 ( A B ) 1 10.00 UNLIMITED )
";

/// The triangle with modules that cost nothing.
const FREE_TRIANGLE: &[u8] = b"?SNDlib native format; type: network; version: 1.0
NODES ( A B C )
LINKS ( AB ( A B ) 0 0 0 0 ( 10.00 0.00 ) BC ( B C ) 0 0 0 0 ( 10.00 0.00 ) AC ( A C ) 0 0 0 0 ( 10.00 0.00 ) )
DEMANDS ( D1 ( A C ) 1 12.00 UNLIMITED )
";

/// The triangle where each link has a setup cost of 3.00.
const SETUPS: &[u8] = b"?SNDlib native format; type: network; version: 1.0
NODES ( A B C )
LINKS ( AB ( A B ) 0 0 0 3.00 ( 10.00 5.00 ) BC ( B C ) 0 0 0 3.00 ( 10.00 5.00 ) AC ( A C ) 0 0 0 3.00 ( 10.00 5.00 ) )
DEMANDS ( D1 ( A C ) 1 12.00 UNLIMITED )
";

/// The triangle with another setup cost for each link.
const OTHER_SETUPS: &[u8] = b"?SNDlib native format; type: network; version: 1.0
NODES ( A B C )
LINKS ( AB ( A B ) 0 0 0 2.50 ( 10.00 5.00 ) BC ( B C ) 0 0 0 5.00 ( 10.00 5.00 ) AC ( A C ) 0 0 0 7.50 ( 10.00 5.00 ) )
DEMANDS ( D1 ( A C ) 1 12.00 UNLIMITED )
";

/// The triangle with setup costs, where the pre-installed capacity of one link carries the demand.
const HELD_WITH_SETUPS: &[u8] = b"?SNDlib native format; type: network; version: 1.0
NODES ( A B C )
LINKS ( AB ( A B ) 0 0 0 3.00 ( 10.00 5.00 ) BC ( B C ) 0 0 0 3.00 ( 10.00 5.00 ) AC ( A C ) 12.00 0 0 3.00 ( 10.00 5.00 ) )
DEMANDS ( D1 ( A C ) 1 12.00 UNLIMITED )
";

/// The triangle with a demand of four decimals, so that all amounts are in millionths.
const FINER_TRIANGLE: &[u8] = b"?SNDlib native format; type: network; version: 1.0
NODES ( A B C )
LINKS ( AB ( A B ) 0 0 0 0 ( 10.00 5.00 ) BC ( B C ) 0 0 0 0 ( 10.00 5.00 ) AC ( A C ) 0 0 0 0 ( 10.00 5.00 ) )
DEMANDS ( D1 ( A C ) 1 12.0001 UNLIMITED )
";

/// An amount that is too large in millionths, and after it one that asks for millionths.
const LARGE_BEFORE_FINE: &[u8] = b"?SNDlib native format; type: network; version: 1.0
NODES ( A B )
LINKS ( L ( A B ) 0 0 0 0 ( 2000000 5.00 ) )
DEMANDS ( D1 ( A B ) 1 0.0001 UNLIMITED )
";

/// The triangle with a further link that has no modules.
const TRIANGLE_AND_A_BARE_LINK: &[u8] = b"?SNDlib native format; type: network; version: 1.0
NODES ( A B C )
LINKS ( AB ( A B ) 0 0 0 0 ( 10.00 5.00 ) BC ( B C ) 0 0 0 0 ( 10.00 5.00 ) AC ( A C ) 0 0 0 0 ( 10.00 5.00 ) XX ( A C ) 0 0 0 0 ( ) )
DEMANDS ( D1 ( A C ) 1 12.00 UNLIMITED )
";

/// Links of which two carry all demands, whichever fails, though a share is spread over three.
const LARGE_MODULES: &[u8] = b"?SNDlib native format; type: network; version: 1.0
NODES ( A B )
LINKS ( L1 ( A B ) 0 0 0 0 ( 100.00 1.00 ) L2 ( A B ) 0 0 0 0 ( 100.00 1.00 ) L3 ( A B ) 0 0 0 0 ( 100.00 1.00 ) )
DEMANDS ( D1 ( A B ) 1 10.00 UNLIMITED )
";

/// Links whose capacities have no common divisor, so that the whole numbers of a program grow wide.
const PRIME_MODULES: &[u8] = b"?SNDlib native format; type: network; version: 1.0
NODES ( A B )
LINKS ( L1 ( A B ) 0 0 0 0 ( 1073741.827 10.007 ) L2 ( A B ) 0 0 0 0 ( 1073741.831 10.009 ) L3 ( A B ) 0 0 0 0 ( 1073741.833 10.037 ) )
DEMANDS ( D1 ( A B ) 1 10.00 UNLIMITED )
";

const CHAIN: &[u8] = b"?SNDlib native format; type: network; version: 1.0
NODES ( A B C )
LINKS ( AB ( A B ) 0 0 0 0 ( 10.00 5.00 ) BC ( B C ) 0 0 0 0 ( 10.00 5.00 ) )
DEMANDS ( D1 ( A C ) 1 12.00 UNLIMITED )
";

const IDLE_CHAIN: &[u8] = b"?SNDlib native format; type: network; version: 1.0
NODES ( A B C )
LINKS ( AB ( A B ) 0 0 0 0 ( 10.00 5.00 ) BC ( B C ) 0 0 0 0 ( 10.00 5.00 ) )
DEMANDS ( D1 ( A C ) 1 0.00 UNLIMITED )
";

const NO_MODULE: &[u8] = b"?SNDlib native format; type: network; version: 1.0
NODES ( A B )
LINKS ( L ( A B ) 0 0 0 0 ( ) )
DEMANDS ( D1 ( A B ) 1 1.00 UNLIMITED )
";

const FIXED_LINK: &[u8] = b"?SNDlib native format; type: network; version: 1.0
NODES ( A B )
LINKS ( L ( A B ) 5 0 0 0 ( ) )
DEMANDS ( )
";

const CUT_OFF: &[u8] = b"?SNDlib native format; type: network; version: 1.0
NODES ( A B )
LINKS ( L ( A";

/// A file as users have it: comments, a section of notes, coordinates, two kinds of modules, and admissible paths.
const FOUR_TOWNS: &[u8] = b"?SNDlib native format; type: network; version: 1.0
# network small4

META (
  granularity = instance
)

# NODE SECTION
# <node_id> [(<longitude>, <latitude>)]
NODES (
  Bonn ( 7.10 50.73 )
  Kiel ( 10.13 54.32 )
  Ulm ( 9.99, 48.40 )
  Jena
)

# LINK SECTION
LINKS (
  L1 ( Bonn Kiel ) 0.00 0.00 0.00 0.00 ( 155.00 100.00 622.00 250.00 )
  L2 ( Kiel Jena ) 0.00 0.00 0.00 0.00 ( 155.00 100.00 622.00 250.00 )
  L3 ( Jena Ulm ) 0.00 0.00 0.00 0.00 ( 155.00 100.00 622.00 250.00 )
  L4 ( Ulm Bonn ) 0.00 0.00 0.00 0.00 ( 155.00 100.00 622.00 250.00 )
  L5 ( Bonn Jena ) 0.00 0.00 0.00 0.00 ( 155.00 100.00 622.00 250.00 )
)

# DEMAND SECTION
DEMANDS (
  D1 ( Bonn Kiel ) 1 60.00 UNLIMITED
  D2 ( Bonn Jena ) 1 80.00 UNLIMITED
  D3 ( Kiel Ulm ) 1 40.00 UNLIMITED
)

ADMISSIBLE_PATHS (
  D1 ( P1 ( L1 ) P2 ( L5 L2 ) )
)
";

const RECONFIGURE: &[u8] = b"?SNDlib native format; type: model; version: 1.0
DEMAND_MODEL = UNDIRECTED
LINK_MODEL = UNDIRECTED
LINK_CAPACITY_MODEL = MODULAR_CAPACITIES
FIXED_CHARGE_MODEL = NO
ROUTING_MODEL = CONTINUOUS
ADMISSIBLE_PATH_MODEL = ALL_PATHS
HOP_LIMIT_MODEL = NO
SURVIVABILITY_MODEL = UNRESTRICTED_FLOW_RECONFIGURATION
";

const NO_SURVIVABILITY: &[u8] = b"?SNDlib native format; type: model; version: 1.0
DEMAND_MODEL = UNDIRECTED
LINK_MODEL = UNDIRECTED
LINK_CAPACITY_MODEL = MODULAR_CAPACITIES
FIXED_CHARGE_MODEL = NO
ROUTING_MODEL = CONTINUOUS
ADMISSIBLE_PATH_MODEL = ALL_PATHS
HOP_LIMIT_MODEL = NO
SURVIVABILITY_MODEL = NO_SURVIVABILITY
";

const CHARGE: &[u8] = b"?SNDlib native format; type: model; version: 1.0
DEMAND_MODEL = UNDIRECTED
LINK_MODEL = UNDIRECTED
LINK_CAPACITY_MODEL = MODULAR_CAPACITIES
FIXED_CHARGE_MODEL = YES
ROUTING_MODEL = CONTINUOUS
ADMISSIBLE_PATH_MODEL = ALL_PATHS
HOP_LIMIT_MODEL = NO
SURVIVABILITY_MODEL = NO_SURVIVABILITY
";

const CHARGE_AND_RECONFIGURE: &[u8] = b"?SNDlib native format; type: model; version: 1.0
DEMAND_MODEL = UNDIRECTED
LINK_MODEL = UNDIRECTED
LINK_CAPACITY_MODEL = MODULAR_CAPACITIES
FIXED_CHARGE_MODEL = YES
ROUTING_MODEL = CONTINUOUS
ADMISSIBLE_PATH_MODEL = ALL_PATHS
HOP_LIMIT_MODEL = NO
SURVIVABILITY_MODEL = UNRESTRICTED_FLOW_RECONFIGURATION
";

const HOP_LIMITS: &[u8] = b"?SNDlib native format; type: model; version: 1.0
HOP_LIMIT_MODEL = INDIVIDUAL
";

const SINGLE: &[u8] = b"?planner failures; version: 1
ALL_SINGLE_LINKS
";

const LAST_FAILS: &[u8] = b"?planner failures; version: 1
FAILURES ( f ( BC ) )
";

/// The triangle without demands.
const NO_DEMANDS: &[u8] = b"?SNDlib native format; type: network; version: 1.0
NODES ( A B C )
LINKS ( AB ( A B ) 0 0 0 0 ( 10.00 5.00 ) BC ( B C ) 0 0 0 0 ( 10.00 5.00 ) AC ( A C ) 0 0 0 0 ( 10.00 5.00 ) )
DEMANDS ( )
";

const SET_AND_PLAN: &[u8] = b"?planner script; version: 1
caller 1 set D1 24
caller 1 plan
caller 1 add D2 ( A X ) 1
";

/// Needs of six decimals.
const FINER_SCRIPT: &[u8] = b"?planner script; version: 1
caller 1 set D1 24.000002
caller 1 plan
caller 1 add D2 ( A X ) 0.000001
";

/// A demand that outgrows the pre-installed capacity.
const RAISED: &[u8] = b"?planner script; version: 1
caller 1 plan
caller 1 set D1 13
caller 1 plan
";

const NO_COMMANDS: &[u8] = b"?planner script; version: 1
";

/// Two modules on each link, the demand's flow, and a flow that goes round in a circle.
const FLOWS_AND_A_CIRCLE: &[u8] = b"?planner flows; version: 1
MODULES ( AB ( 2 ) BC ( 2 ) AC ( 2 ) )
FLOWS ( none ( D1 AC A 12 D1 AB A 3 D1 BC B 3 D1 AC C 3 ) )
";

const NINTH_CALLER: &[u8] = b"?planner script; version: 1
caller 9 plan
";

/// The name and the bytes of a file.

/// Networks, scripts and flows that the commands name.
const NETWORKS_AND_SCRIPTS: [File<'static>; 17] = [
    ("triangle", TRIANGLE),
    ("empty", NO_DEMANDS),
    ("set", SET_AND_PLAN),
    ("idle-script", NO_COMMANDS),
    ("circle", FLOWS_AND_A_CIRCLE),
    ("ninth", NINTH_CALLER),
    ("fixed", FIXED_TRIANGLE),
    ("parallel", PARALLEL),
    ("four", FOUR_PARALLEL),
    ("free", FREE_TRIANGLE),
    ("bare-link", TRIANGLE_AND_A_BARE_LINK),
    ("large", LARGE_MODULES),
    ("prime", PRIME_MODULES),
    ("chain", CHAIN),
    ("idle", IDLE_CHAIN),
    ("bare", NO_MODULE),
    ("stuck", FIXED_LINK),
];

/// More networks, models, scripts and failure lists.
const FURTHER_FILES: [File<'static>; 16] = [
    ("cut", CUT_OFF),
    ("towns", FOUR_TOWNS),
    ("setups", SETUPS),
    ("other-setups", OTHER_SETUPS),
    ("held", HELD_WITH_SETUPS),
    ("finer", FINER_TRIANGLE),
    ("large-then-fine", LARGE_BEFORE_FINE),
    ("finer-script", FINER_SCRIPT),
    ("raised", RAISED),
    ("charge", CHARGE),
    ("charge-all", CHARGE_AND_RECONFIGURE),
    ("reconfigure", RECONFIGURE),
    ("plain", NO_SURVIVABILITY),
    ("hops", HOP_LIMITS),
    ("single", SINGLE),
    ("last", LAST_FAILS),
];

/// Adds the networks, scripts and flows.
fn put_networks(held: &mut List<MemFile>, alloc: Global) -> Option<()> {
    put_files(held, alloc, &NETWORKS_AND_SCRIPTS)
}

/// Adds the further files.
fn put_further(held: &mut List<MemFile>, alloc: Global) -> Option<()> {
    put_files(held, alloc, &FURTHER_FILES)
}

/// All files, the measured network, and the given ones.
pub(crate) fn all_files(alloc: Global, more: &[File]) -> Option<List<MemFile>> {
    let mut held = List::new(alloc);
    put_networks(&mut held, alloc)?;
    put_further(&mut held, alloc)?;
    put_files(&mut held, alloc, &[("measured", MEASURED)])?;
    put_files(&mut held, alloc, more)?;
    Some(held)
}
