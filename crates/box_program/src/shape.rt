ghost use Rattle.std.specs.Prelude.{◌≡◌, ◌+◌, ◌<◌, ◌≤◌, ◌^◌, All, length};
ghost use Rattle.box_program.specs.inner.BoxPrograms.{IsBoxBound};

use net_core::List;
use tree_check::Span;

/// A module of several counts, and its row's bound.
#[derive(Clone, Copy)]
pub(crate) struct ModuleRow {
    pub link: usize,
    pub module: usize,
    pub span: Span,
    pub bound: i64,
    pub ghost fits: { IsBoxBound bound },
}

/// What sets the bounds of rows.
#[derive(Clone, Copy)]
pub(crate) struct Scale {
    /// What divides all module costs.
    pub unit: u64,
    /// The price that no greatest count passes, in these units.
    pub top: u64,
    pub ghost some: { 0 < unit },
    pub ghost low: { top ≤ 2 ^ 60 },
}

/// The greatest count of a module as a row of its own.
#[derive(Clone, Copy)]
pub(crate) struct Cap {
    /// The module's row.
    pub row: u32,
    /// How far it is from the least count.
    pub room: u64,
    pub ghost narrow: { room < 2 ^ 62 },
}

/// The rows of the program of a box: one for each module of several counts, then one for each greatest count of these.
#[derive(Drop)]
pub(crate) struct Rows {
    pub modules: List<ModuleRow>,
    pub caps: List<Cap>,
    pub bounds: List<i64>,
    pub ghost count: { length bounds ≡ length modules + length caps },
    pub ghost few: { length modules ≤ 2 ^ 20 },
    pub ghost fewer: { length caps ≤ length modules },
    pub ghost capped: { All (λ c. c.row < length modules) caps },
    pub ghost fit: { All IsBoxBound bounds },
}
