ghost use Rattle.plan_reports.specs.Laws.{LonePlansAreAccepted, RedesignsAreAccepted};

/// The report of a plan has no finding, and no counts that can carry the plan's demands cost less than its bound.
/// The call does nothing, and takes no time.
pub fn lone_plans_are_accepted()
    ensures { LonePlansAreAccepted }
{}

/// If a sound design replaces the one of a report's plan, the report is in form and has no finding, and no counts that can carry the
/// demands cost less than its bound. The call does nothing, and takes no time.
pub fn redesigns_are_accepted()
    ensures { RedesignsAreAccepted }
{}
