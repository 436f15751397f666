use line_check::Tested;
use net_core::Instance;

/// What nodes are tested by: the instance, the lines that were tested, and the plan's cost.
#[derive(Clone, Copy)]
pub struct Tests<'a> {
    pub instance: &'a Instance<'a>,
    pub tested: &'a [Tested],
    pub cost: u128,
}
