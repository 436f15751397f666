ghost use Rattle.line_maker.specs.Orders.{NamesAreKept};

/// What an entry's index names, its place in the order names. The call does nothing, and takes no time.
pub fn names_are_kept()
    ensures { NamesAreKept }
{}
