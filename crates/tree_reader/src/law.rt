ghost use Rattle.tree_reader.specs.Laws.{TreesAreRead};

/// The lines of a proof, put below a report, spell its tree. The call does nothing, and takes no time.
pub fn trees_are_read()
    ensures { TreesAreRead }
{}
