use crate::runs::ends_with;
use net_core::{Bytes, List, Name, NoMemory};
use outside_io::MemFile;
use people_commands::Status;
use std::alloc::Global;
use std::sync::Wait;
use std::thread::Threads;
use worked_networks::{shelf_with, words_of};

/// Two nodes with 18 links between them. In these texts each @ means 240 letters and each ~ means 240 spaces, so that all names of nodes
/// and links have 255 bytes.
const NETWORK: &str = "?SNDlib native format; type: network; version: 1.0
NODES ( @node-number-001 @node-number-002 )
LINKS (
  @link-number-001 ( @node-number-001 @node-number-002 ) 0 0 0 0 ( 10.00 5.00 )
  @link-number-002 ( @node-number-001 @node-number-002 ) 0 0 0 0 ( 10.00 5.00 )
  @link-number-003 ( @node-number-001 @node-number-002 ) 0 0 0 0 ( 10.00 5.00 )
  @link-number-004 ( @node-number-001 @node-number-002 ) 0 0 0 0 ( 10.00 5.00 )
  @link-number-005 ( @node-number-001 @node-number-002 ) 0 0 0 0 ( 10.00 5.00 )
  @link-number-006 ( @node-number-001 @node-number-002 ) 0 0 0 0 ( 10.00 5.00 )
  @link-number-007 ( @node-number-001 @node-number-002 ) 0 0 0 0 ( 10.00 5.00 )
  @link-number-008 ( @node-number-001 @node-number-002 ) 0 0 0 0 ( 10.00 5.00 )
  @link-number-009 ( @node-number-001 @node-number-002 ) 0 0 0 0 ( 10.00 5.00 )
  @link-number-010 ( @node-number-001 @node-number-002 ) 0 0 0 0 ( 10.00 5.00 )
  @link-number-011 ( @node-number-001 @node-number-002 ) 0 0 0 0 ( 10.00 5.00 )
  @link-number-012 ( @node-number-001 @node-number-002 ) 0 0 0 0 ( 10.00 5.00 )
  @link-number-013 ( @node-number-001 @node-number-002 ) 0 0 0 0 ( 10.00 5.00 )
  @link-number-014 ( @node-number-001 @node-number-002 ) 0 0 0 0 ( 10.00 5.00 )
  @link-number-015 ( @node-number-001 @node-number-002 ) 0 0 0 0 ( 10.00 5.00 )
  @link-number-016 ( @node-number-001 @node-number-002 ) 0 0 0 0 ( 10.00 5.00 )
  @link-number-017 ( @node-number-001 @node-number-002 ) 0 0 0 0 ( 10.00 5.00 )
  @link-number-018 ( @node-number-001 @node-number-002 ) 0 0 0 0 ( 10.00 5.00 )
)
DEMANDS ( D ( @node-number-001 @node-number-002 ) 1 9.00 UNLIMITED )
";

/// A plan with a module on two links, one of which carries the demand, and the other when that one fails.
const REPORT: &str = "?planner report; version: 1
NOTES ( ) JOURNAL ( ( 1 cut 0 ) ) POOL ( ( 0 state 1 right 9000 ( 0 1 1 1 1 1 1 1 1 1 1 1 1 1 1 1 1 1 ) ) )
OUTCOMES ( PLAN ( caller 1 plan 1 version 0 position 0
  DEMANDS ( D ( @node-number-001 @node-number-002 ) 9.000 )
  cost 90.000 bound 5.000 raw 4500 1
  MODULES (
    @link-number-001 ( 1 )
    @link-number-002 ( 1 )
    @link-number-003 ( 1 )
    @link-number-004 ( 1 )
    @link-number-005 ( 1 )
    @link-number-006 ( 1 )
    @link-number-007 ( 1 )
    @link-number-008 ( 1 )
    @link-number-009 ( 1 )
    @link-number-010 ( 1 )
    @link-number-011 ( 1 )
    @link-number-012 ( 1 )
    @link-number-013 ( 1 )
    @link-number-014 ( 1 )
    @link-number-015 ( 1 )
    @link-number-016 ( 1 )
    @link-number-017 ( 1 )
    @link-number-018 ( 1 )
  )
  CERTIFICATE ( 2 ( 1 pool 0 right 9000 ) )
  ROUTES (
    state 0 none 1 ( D 9000 ( @link-number-001 ) )
    state 1 @link-number-001 1 ( D 9000 ( @link-number-002 ) )
    state 2 @link-number-002 1 ( D 9000 ( @link-number-001 ) )
    state 3 @link-number-003 1 ( D 9000 ( @link-number-001 ) )
    state 4 @link-number-004 1 ( D 9000 ( @link-number-001 ) )
    state 5 @link-number-005 1 ( D 9000 ( @link-number-001 ) )
    state 6 @link-number-006 1 ( D 9000 ( @link-number-001 ) )
    state 7 @link-number-007 1 ( D 9000 ( @link-number-001 ) )
    state 8 @link-number-008 1 ( D 9000 ( @link-number-001 ) )
    state 9 @link-number-009 1 ( D 9000 ( @link-number-001 ) )
    state 10 @link-number-010 1 ( D 9000 ( @link-number-001 ) )
    state 11 @link-number-011 1 ( D 9000 ( @link-number-001 ) )
    state 12 @link-number-012 1 ( D 9000 ( @link-number-001 ) )
    state 13 @link-number-013 1 ( D 9000 ( @link-number-001 ) )
    state 14 @link-number-014 1 ( D 9000 ( @link-number-001 ) )
    state 15 @link-number-015 1 ( D 9000 ( @link-number-001 ) )
    state 16 @link-number-016 1 ( D 9000 ( @link-number-001 ) )
    state 17 @link-number-017 1 ( D 9000 ( @link-number-001 ) )
    state 18 @link-number-018 1 ( D 9000 ( @link-number-001 ) )
  )
  loose cuts
) )
";

/// The view of that plan, with the columns of the triangle's view, each as wide as its longest cell. The cut of the first failure asks for
/// 9.00. Modules of 10.00 for 5.00 make that worth 4.50, and a whole module costs 5.00.
const VIEW: &str = "wide   2 nodes, 18 links, 1 demand of 9.000; 18 failures, all survived

  cost        90.000   not shown to be cheapest
  at least     5.000   by one certificate of cuts; gap 94.4 %
  fractional   4.500   the search ended early: there was no room for a further cut

  Link~              Ends~~                                Modules       Capacity    Normal     Worst   Used   In state~              Cost
  @link-number-001   @node-number-001 - @node-number-002   1 x 10.000      10.000     9.000     9.000   90 %   none~                 5.000
  @link-number-002   @node-number-001 - @node-number-002   1 x 10.000      10.000     0.000     9.000   90 %   @link-number-001      5.000
  @link-number-003   @node-number-001 - @node-number-002   1 x 10.000      10.000     0.000     0.000    0 %   none~                 5.000
  @link-number-004   @node-number-001 - @node-number-002   1 x 10.000      10.000     0.000     0.000    0 %   none~                 5.000
  @link-number-005   @node-number-001 - @node-number-002   1 x 10.000      10.000     0.000     0.000    0 %   none~                 5.000
  @link-number-006   @node-number-001 - @node-number-002   1 x 10.000      10.000     0.000     0.000    0 %   none~                 5.000
  @link-number-007   @node-number-001 - @node-number-002   1 x 10.000      10.000     0.000     0.000    0 %   none~                 5.000
  @link-number-008   @node-number-001 - @node-number-002   1 x 10.000      10.000     0.000     0.000    0 %   none~                 5.000
  @link-number-009   @node-number-001 - @node-number-002   1 x 10.000      10.000     0.000     0.000    0 %   none~                 5.000
  @link-number-010   @node-number-001 - @node-number-002   1 x 10.000      10.000     0.000     0.000    0 %   none~                 5.000
  @link-number-011   @node-number-001 - @node-number-002   1 x 10.000      10.000     0.000     0.000    0 %   none~                 5.000
  @link-number-012   @node-number-001 - @node-number-002   1 x 10.000      10.000     0.000     0.000    0 %   none~                 5.000
  @link-number-013   @node-number-001 - @node-number-002   1 x 10.000      10.000     0.000     0.000    0 %   none~                 5.000
  @link-number-014   @node-number-001 - @node-number-002   1 x 10.000      10.000     0.000     0.000    0 %   none~                 5.000
  @link-number-015   @node-number-001 - @node-number-002   1 x 10.000      10.000     0.000     0.000    0 %   none~                 5.000
  @link-number-016   @node-number-001 - @node-number-002   1 x 10.000      10.000     0.000     0.000    0 %   none~                 5.000
  @link-number-017   @node-number-001 - @node-number-002   1 x 10.000      10.000     0.000     0.000    0 %   none~                 5.000
  @link-number-018   @node-number-001 - @node-number-002   1 x 10.000      10.000     0.000     0.000    0 %   none~                 5.000
  total~~~                                                                180.000     9.000~                                        90.000

  Failure~           Links out~         Rerouted   Fullest link~                 Part of the bound
  none~              -~                        -   @link-number-001    90 %          -
  @link-number-001   @link-number-001      9.000   @link-number-002    90 %      100.0 %   ####################
  @link-number-002   @link-number-002      0.000   @link-number-001    90 %          -
  @link-number-003   @link-number-003      0.000   @link-number-001    90 %          -
  @link-number-004   @link-number-004      0.000   @link-number-001    90 %          -
  @link-number-005   @link-number-005      0.000   @link-number-001    90 %          -
  @link-number-006   @link-number-006      0.000   @link-number-001    90 %          -
  @link-number-007   @link-number-007      0.000   @link-number-001    90 %          -
  @link-number-008   @link-number-008      0.000   @link-number-001    90 %          -
  @link-number-009   @link-number-009      0.000   @link-number-001    90 %          -
  @link-number-010   @link-number-010      0.000   @link-number-001    90 %          -
  @link-number-011   @link-number-011      0.000   @link-number-001    90 %          -
  @link-number-012   @link-number-012      0.000   @link-number-001    90 %          -
  @link-number-013   @link-number-013      0.000   @link-number-001    90 %          -
  @link-number-014   @link-number-014      0.000   @link-number-001    90 %          -
  @link-number-015   @link-number-015      0.000   @link-number-001    90 %          -
  @link-number-016   @link-number-016      0.000   @link-number-001    90 %          -
  @link-number-017   @link-number-017      0.000   @link-number-001    90 %          -
  @link-number-018   @link-number-018      0.000   @link-number-001    90 %          -

  accepted: the modules carry every demand in 19 of 19 states, and no plan costs less than 5.000
";

/// Adds what a byte of a short text means.
fn put_written(text: &mut Bytes, byte: u8) -> Result<(), NoMemory> {
    match byte {
        b'@' => text.append(&[b'x'; 240]),
        b'~' => text.append(&[b' '; 240]),
        _ => text.append(&[byte]),
    }
}

/// The short text with each @ and each ~ written out.
fn written(alloc: Global, short: &str) -> Result<Bytes, NoMemory> {
    let mut text = List::new(alloc);
    for byte in short.as_bytes() {
        put_written(&mut text, *byte)?;
    }
    Ok(text)
}

/// Adds a file of a short text, written out.
fn put(held: &mut List<MemFile>, alloc: Global, name: &[u8], short: &str) -> Option<()> {
    let name = Name::new(alloc, name).ok()?;
    let bytes = written(alloc, short).ok()?;
    held.push(MemFile { name, bytes }).ok()
}

/// The network and the report.
fn wide_files(alloc: Global) -> Option<List<MemFile>> {
    let mut held = List::new(alloc);
    put(&mut held, alloc, b"wide", NETWORK)?;
    put(&mut held, alloc, b"report", REPORT)?;
    Some(held)
}

/// Whether the view of the report is printed as it should be; `None` if memory runs out.
fn is_straight<R: Threads + Wait + Sync>(rt: &R, alloc: Global) -> Option<bool> {
    let words = words_of(alloc, "view wide report --survive links")?;
    let shelf = shelf_with(alloc, wide_files(alloc)?, &[9])?;
    let view = written(alloc, VIEW).ok()?;
    ends_with(
        rt,
        alloc,
        &words,
        shelf,
        (9, 1 << 20),
        (Status::Done, view.items(), b""),
    )
}

#[test]
fn long_names_keep_the_columns_of_19_states_straight(rt: HostRuntime) {
    assert!(rt; is_straight(&rt, rt.alloc()) == Some(true));
}
