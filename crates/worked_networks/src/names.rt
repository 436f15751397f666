ghost use Rattle.std.specs.Prelude.{◌≡◌, ◌≤◌, ◌+◌, [], ◌∷◌, IfOk};
ghost use Rattle.net_core.specs.Terms.{IsName};

use net_core::{Name, NameFault, NoMemory};
use std::alloc::Global;

/// A name of bytes that are known to be one. It takes time and memory in the bytes.
pub fn name(alloc: Global, bytes: &[u8]) -> Result<Name, NoMemory>
    requires { IsName bytes.now }
    ensures { IfOk result (λ n. n ≡ bytes.now) }
{
    match Name::new(alloc, bytes) {
        Ok(name) => Ok(name),
        Err(NameFault::NoMemory) => Err(NoMemory),
        Err(_) => unreachable!(),
    }
}

/// The name of one letter, this number of places after the first. It takes a byte of memory.
pub fn letter(alloc: Global, first: u8, place: usize) -> Result<Name, NoMemory>
    requires first { 65 ≤ first }
    requires place { first + place ≤ 122 }
    ensures { IfOk result (λ n. n ≡ (first + place) ∷ []) }
{
    name(alloc, &[first + place as u8])
}
