ghost use Rattle.std.specs.Prelude.{◌≤◌, IfSome};
ghost use Rattle.people_plans.specs.PlansForPeople.{IsDefaultLimit, IsLimitOf};

/// How many splits a branch tree has at most by default: 100 for up to 20 nodes, 10 for up to 40, and none for more, so that the tree is
/// its root alone. So a plan comes in seconds where nobody says how long to look, and the same words give the same tree on every machine, as
/// a limit of time wouldn't. It takes constant time, and no memory.
pub fn default_splits(nodes: usize) -> u32
    ensures limit { IsDefaultLimit nodes result }
    ensures few { result ≤ 100 }
{
    if nodes <= 20 {
        100
    } else if nodes <= 40 {
        10
    } else {
        0
    }
}

/// How many splits a branch tree has at most: `splits`, or `default_splits` if that is `None`.
pub(crate) fn limit_of(splits: Option<u32>, nodes: usize) -> u32
    requires { IfSome splits (λ n. n ≤ 9999) }
    ensures limit { IsLimitOf splits nodes result }
    ensures few { result ≤ 9999 }
{
    match splits {
        Some(splits) => splits,
        None => default_splits(nodes),
    }
}
