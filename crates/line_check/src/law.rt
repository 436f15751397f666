ghost use Rattle.line_check.specs.Laws.{LinesAreMet, RobustLinesAreMet};

/// Counts that carry the demands in each state meet each line. The call does nothing, and takes no time.
pub fn lines_are_met()
    ensures { LinesAreMet }
{}

/// In each state the modules that it leaves of such counts meet each robust line. The call does nothing, and takes no time.
pub fn robust_lines_are_met()
    ensures { RobustLinesAreMet }
{}
