use net_core::Bytes;
use outside_io::Status;

/// What people are told of a plan. The text is for standard output, and the message for standard error.
#[derive(Drop)]
pub struct PlanAnswer {
    pub status: Status,
    /// What is printed; empty if there is no plan.
    pub text: Bytes,
    /// What is said besides; empty if there is nothing to say.
    pub message: Bytes,
}
