use crate::ids::StateId;
use crate::list::{Copied, NoMemory};
use crate::name::Name;
use crate::plan::Lengths;

/// A change of the demands that a caller asks for. Needs are in units of the network.
#[derive(Drop)]
pub enum Edit {
    /// The demand's need becomes this one.
    Set {
        name: Name,
        need: u64,
    },
    /// A new demand between two nodes, which are named.
    Add {
        name: Name,
        from: Name,
        to: Name,
        need: u64,
    },
    /// The demand is taken out.
    Drop {
        name: Name,
    },
}

/// What an edit is answered.
#[derive(Clone, Copy, Debug, PartialEq, Eq)]
pub enum Reply {
    /// The edit was made; the number is the version of the demands since then.
    Accepted(u64),
    /// No demand has the name.
    UnknownDemand,
    /// A demand has the name already.
    KnownDemand,
    /// An end is no node.
    UnknownNode,
    /// Both ends are one node.
    SelfDemand,
    /// There are 2,048 demands already.
    TooMany,
    /// All needs together would be this, which is 2^44 units or more.
    TooMuch(u64),
}

/// What a history has at one position.
#[derive(Drop)]
pub enum Entry {
    /// A caller's edit and its reply, refused edits among them.
    Edited {
        caller: u32,
        edit: Edit,
        reply: Reply,
    },
    /// A cut that came into the pool: its place there, its state, and one length for each link.
    Pooled {
        index: u32,
        state: StateId,
        lengths: Lengths,
    },
}

impl Copied for Edit {
    fn copy(&self) -> Result<Edit, NoMemory> {
        Ok(match self {
            Edit::Set { name, need } => Edit::Set {
                name: name.copy()?,
                need: *need,
            },
            Edit::Add {
                name,
                from,
                to,
                need,
            } => Edit::Add {
                name: name.copy()?,
                from: from.copy()?,
                to: to.copy()?,
                need: *need,
            },
            Edit::Drop { name } => Edit::Drop { name: name.copy()? },
        })
    }
}

impl Copied for Entry {
    fn copy(&self) -> Result<Entry, NoMemory> {
        Ok(match self {
            Entry::Edited {
                caller,
                edit,
                reply,
            } => Entry::Edited {
                caller: *caller,
                edit: edit.copy()?,
                reply: *reply,
            },
            Entry::Pooled {
                index,
                state,
                lengths,
            } => Entry::Pooled {
                index: *index,
                state: *state,
                lengths: lengths.copy()?,
            },
        })
    }
}
