ghost use Rattle.tree_check.specs.Laws.{BoxValueHolds, CheapestHolds, EmptiedHasNone, LeavesCover, OpenLeavesHold};

/// The leaves of a whole tree cover all counts. The call does nothing, and takes no time.
pub fn leaves_cover()
    ensures { LeavesCover }
{}

/// No counts of a box that meet the lines of a certificate cost less than its value. The call does nothing, and takes no time.
pub fn box_value_holds()
    ensures { BoxValueHolds }
{}

/// No counts of an emptied box meet the line that empties it. The call does nothing, and takes no time.
pub fn emptied_has_none()
    ensures { EmptiedHasNone }
{}

/// No counts that carry the demands cost less than a plan that a tree shows to be cheapest. The call does nothing, and takes no time.
pub fn cheapest_holds()
    ensures { CheapestHolds }
{}

/// No counts that carry the demands cost less than what a tree with open leaves shows. The call does nothing, and takes no time.
pub fn open_leaves_hold()
    ensures { OpenLeavesHold }
{}
