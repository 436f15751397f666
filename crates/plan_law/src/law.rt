ghost use Rattle.plan_law.specs.Laws.{CoversCarry, FoundCutsAreNew, TightIsGreatest, WorkedListsBegin, WorkedListsDiffer, WorkedListsFill, WorkedListsGoOn};

/// A cut that a least share of cuts violates isn't one of them. The call does nothing, and takes no time.
pub fn found_cuts_are_new()
    ensures { FoundCutsAreNew }
{}

/// What a planning begins with is a worked list without rounds. The call does nothing, and takes no time.
pub fn worked_lists_begin()
    ensures { WorkedListsBegin }
{}

/// A worked list and a round after it are a worked list, as long as no more than 4,096 cuts are added. The call does nothing, and takes no time.
pub fn worked_lists_go_on()
    ensures { WorkedListsGoOn }
{}

/// A worked list and as many cuts of a round as there is room for are a worked list. The call does nothing, and takes no time.
pub fn worked_lists_fill()
    ensures { WorkedListsFill }
{}

/// The cuts of a worked list are cuts of the case and all different, where those of the snapshot are. The call does nothing, and takes no time.
pub fn worked_lists_differ()
    ensures { WorkedListsDiffer }
{}

/// No certificate, of whatever cuts, has a greater raw value than a tight plan. The call does nothing, and takes no time.
pub fn tight_is_greatest()
    ensures { TightIsGreatest }
{}

/// Counts that cover a share carry the demands in each state in which the share does, so their capacities violate no cut of it. The call does
/// nothing, and takes no time.
pub fn covers_carry()
    ensures { CoversCarry }
{}
