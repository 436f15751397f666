use line_check::Line;
use net_core::CutLine;

/// What an index of a search names.
#[derive(Drop)]
pub enum Entry {
    Cut(CutLine),
    /// A line over earlier entries.
    Line(Line),
}
