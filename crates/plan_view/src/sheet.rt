/// Of what there is a row.
#[derive(Clone, Copy, Debug, PartialEq, Eq)]
pub enum Sheet {
    /// Of each link.
    Links,
    /// Of each state.
    States,
    /// Of each flow in each state.
    Flows,
}
