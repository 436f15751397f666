ghost use Rattle.std.specs.Prelude.{◌≡◌};
ghost use Rattle.session_script.specs.Scripts.{is_plan};

use net_core::{Copied, Edit, List, NoMemory};

/// What a command asks for.
#[derive(Drop)]
pub enum Act {
    /// A change of the demands.
    Change(Edit),
    /// A plan for the demands as they are then.
    Plan,
}

/// A command, and the caller who gives it, a number from 1 to 8.
#[derive(Drop)]
pub struct Command {
    pub caller: u32,
    pub act: Act,
}

/// The commands of a session, in their order.
#[derive(Drop)]
pub struct Script {
    pub commands: List<Command>,
}

/// What the word after a caller asks for.
#[derive(Clone, Copy, Debug, PartialEq, Eq)]
pub enum Verb {
    /// `set`: another need of a demand.
    Set,
    /// `add`: a new demand.
    Add,
    /// `drop`: one demand less.
    Drop,
    /// `plan`
    Plan,
}

impl Command {
    /// Whether the command asks for a plan. It takes constant time.
    pub fn is_plan(&self) -> bool
        ensures { result ≡ is_plan self.now }
    {
        match &self.act {
            Act::Change(_) => false,
            Act::Plan => true,
        }
    }
}

impl Copied for Act {
    fn copy(&self) -> Result<Act, NoMemory> {
        Ok(match self {
            Act::Change(edit) => Act::Change(edit.copy()?),
            Act::Plan => Act::Plan,
        })
    }
}

impl Copied for Command {
    fn copy(&self) -> Result<Command, NoMemory> {
        Ok(Command {
            caller: self.caller,
            act: self.act.copy()?,
        })
    }
}

impl Copied for Script {
    fn copy(&self) -> Result<Script, NoMemory> {
        Ok(Script {
            commands: self.commands.copy()?,
        })
    }
}
