ghost use Rattle.std.specs.Prelude.{◌≡◌};

use net_core::Entry;
use std::marker::Model;
use std::snapshot::Snapshot;

/// The entries of a history, as contracts read them. It has no bytes: the history itself keeps the entries, in memory of which
/// contracts that speak of entries alone needn't know.
#[derive(Drop)]
pub struct Told {
    entries: Snapshot<Vec<Entry>>,
}

impl Model for Told {
    ghost use Rattle.std.specs.Prelude as p;
    ghost use Rattle.plan_terms.specs.Terms.{Entry};

    ghost Value = { p.List Entry };

    ghost view = { λ t. t.entries.value.items };
}

impl Told {
    /// These entries.
    pub fn of(entries: &Vec<Entry>) -> Told
        ensures { result ≡ entries.now.items }
    {
        Told {
            entries: Snapshot::of(entries),
        }
    }
}
