/// How a state is asked whether capacities carry all demands.
#[derive(Clone, Copy)]
pub enum StateQuestion {
    /// Whether one of the sets of nodes that grow is violated, and where none is, routing.
    SetsFirst,
    /// Routing alone: meant for a state whose sets were looked at.
    RoutingAlone,
}
