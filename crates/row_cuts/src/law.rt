ghost use Rattle.row_cuts.specs.Laws.{RowsArePriced};

/// A row of a basis of key paths, none of whose numbers is below 0 and under which each key is a shortest path of its demand, is
/// priced with nothing named: in lowest terms it is the link prices of a best basis of its network. The call does nothing, and takes no time.
pub fn rows_are_priced()
    ensures { RowsArePriced }
{}
