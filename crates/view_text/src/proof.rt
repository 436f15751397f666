/// What is known of how cheap a plan is, beside its own bound.
#[derive(Clone, Copy, Debug, PartialEq, Eq)]
pub enum CostProof {
    /// Nothing more.
    Nothing,
    /// A branch tree of this many boxes shows the plan to be cheapest.
    Cheapest(u32),
    /// A branch tree of the first number of boxes shows that no plan costs less than the second, in units of the network.
    Above(u32, u128),
}
