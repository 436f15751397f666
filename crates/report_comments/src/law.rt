ghost use Rattle.report_comments.specs.ReportComments.{ReportsTakeComments};

/// A text of a report still spells the report if comments follow it. The call does nothing, and takes no time.
pub fn reports_take_comments()
    ensures { ReportsTakeComments }
{}
