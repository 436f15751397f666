ghost use Rattle.report_comments.specs.Laws.{CommentsAreNoItems};

/// If the last byte of a file ends a line, the file has the same items with comments after it. The call does nothing, and takes no time.
pub fn comments_are_no_items()
    ensures { CommentsAreNoItems }
{}
