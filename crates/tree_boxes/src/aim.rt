use net_core::Instance;
use plan_types::Plan;
use tree_check::BoxCert;

/// What a tree has to show: that no counts of the instance cost less than the plan.
#[derive(Clone, Copy)]
pub struct Aim<'a> {
    pub instance: &'a Instance<'a>,
    pub plan: &'a Plan,
    /// The plan's certificate, with its cuts given by their indices in the search.
    pub own: &'a BoxCert,
}
