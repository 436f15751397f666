/// A place in a list of lists: of a flow, a demand or a link in a state, or of a module in a link.
#[derive(Clone, Copy)]
pub struct Place {
    pub group: u32,
    pub at: u32,
}
