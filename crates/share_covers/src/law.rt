ghost use Rattle.share_covers.specs.Laws.{WideCoversAreLoose};

/// Evidence at the covers of a share makes a plan loose by width, where the share is a least one and costs the raw value. The call does nothing, and
/// takes no time.
pub fn wide_covers_are_loose()
    ensures { WideCoversAreLoose }
{}
