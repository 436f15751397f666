ghost use Rattle.tree_search.{specs.FewSplits.SplitsAreFew, specs.Proving.NoneIsSpent};

/// A tree has few splits if each is at a number of modules that cost less than the plan. The call does nothing, and takes no time.
pub fn splits_are_few()
    ensures { SplitsAreFew }
{}

/// If the limit of a search is at least the number of splits for which a tree has room, no box stays open for want of splits. The call does
/// nothing, and takes no time.
pub fn none_is_spent()
    ensures { NoneIsSpent }
{}
