ghost use Rattle.plan_reports.specs.Designs.{CheaperRedesignsArePlans, LonePlansCarry};

/// The plan in the report of one plan command carries the opening demands in each state, at the cost of its counts, in form and in lowest
/// terms, and no state separates one of the demands. The call does nothing, and takes no time.
pub fn lone_plans_carry()
    ensures { LonePlansCarry }
{}

/// The report of a plan stays a transcript if a sound design in lowest terms that costs no more replaces the plan's own. The call does
/// nothing, and takes no time.
pub fn cheaper_redesigns_are_plans()
    ensures { CheaperRedesignsArePlans }
{}
