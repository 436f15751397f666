use net_core::List;
use outside_io::MemFile;
use std::alloc::Global;
use worked_networks::{File, put_files};

const TRIANGLE: &[u8] = b"?SNDlib native format; type: network; version: 1.0
NODES ( A B C )
LINKS (
  AB ( A B ) 0 0 0 0 ( 10.00 5.00 )
  BC ( B C ) 0 0 0 0 ( 10.00 5.00 )
  AC ( A C ) 0 0 0 0 ( 10.00 5.00 )
)
DEMANDS (
  D1 ( A C ) 1 12.00 UNLIMITED
)
";

/// The triangle with a fourth node D, which one link joins to C.
const BRIDGE: &[u8] = b"?SNDlib native format; type: network; version: 1.0
NODES ( A B C D )
LINKS (
  AB ( A B ) 0 0 0 0 ( 10.00 5.00 )
  BC ( B C ) 0 0 0 0 ( 10.00 5.00 )
  CD ( C D ) 0 0 0 0 ( 10.00 5.00 )
  AC ( A C ) 0 0 0 0 ( 10.00 5.00 )
)
DEMANDS (
  D1 ( A C ) 1 12.00 UNLIMITED
  D2 ( A D ) 1 3.00 UNLIMITED
)
";

/// A node that no link joins to the others.
const APART: &[u8] = b"?SNDlib native format; type: network; version: 1.0
NODES ( A B C )
LINKS ( AB ( A B ) 0 0 0 0 ( 10.00 5.00 ) )
DEMANDS ( D1 ( A B ) 1 1.00 UNLIMITED D2 ( A C ) 1 1.00 UNLIMITED )
";

/// A link that has capacity installed and no modules.
const BROKEN: &[u8] = b"?SNDlib native format; type: network; version: 1.0
NODES ( A B )
LINKS ( L ( A B ) 5 0 0 0 ( ) )
DEMANDS ( D ( A B ) 1 1 UNLIMITED )
";

/// A model without survivability.
const PLAIN: &[u8] = b"?SNDlib native format; type: model; version: 1.0
DEMAND_MODEL = UNDIRECTED
LINK_MODEL = UNDIRECTED
LINK_CAPACITY_MODEL = MODULAR_CAPACITIES
FIXED_CHARGE_MODEL = NO
ROUTING_MODEL = CONTINUOUS
ADMISSIBLE_PATH_MODEL = ALL_PATHS
HOP_LIMIT_MODEL = NO
SURVIVABILITY_MODEL = NO_SURVIVABILITY
";

/// The failure of one link.
const LIST: &[u8] = b"?planner failures; version: 1
FAILURES ( f ( AB ) )
";

const FILES: [File<'static>; 8] = [
    ("triangle", TRIANGLE),
    ("bridge", BRIDGE),
    ("apart", APART),
    ("broken", BROKEN),
    ("-x", TRIANGLE),
    ("/dev/stdin", TRIANGLE),
    ("plain", PLAIN),
    ("list", LIST),
];

/// All files of these tests.
pub(crate) fn all_files(alloc: Global) -> Option<List<MemFile>> {
    let mut held = List::new(alloc);
    put_files(&mut held, alloc, &FILES)?;
    Some(held)
}
