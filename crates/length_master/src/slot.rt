/// A column of a basis: the slack of a link, or a cut by its place in the list.
#[derive(Clone, Copy)]
pub enum Slot {
    Slack(usize),
    Cut(usize),
}
