ghost use Rattle.trim_plan.specs.Laws.{TrimmedAreLeast};

/// If all blocks of trimmed counts are cuts, no counts with one module less can carry the demands. The call does nothing, and takes no
/// time.
pub fn trimmed_are_least()
    ensures { TrimmedAreLeast }
{}
