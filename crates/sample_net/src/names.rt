ghost use Rattle.std.specs.Prelude.{◌≡◌, ◌≤◌, IfOk};
ghost use Rattle.plan_terms.specs.Terms.{IsName};
ghost use Rattle.sample_net.specs.Samples.{numbered};

use net_core::{List, Name, NameFault, NoMemory};
use std::alloc::Global;
use text_kit::write::put_decimal;

/// A name that is known to be one.
fn name(alloc: Global, bytes: &[u8]) -> Result<Name, NoMemory>
    requires { IsName bytes.now }
    ensures { IfOk result (λ n. n ≡ bytes.now) }
{
    match Name::new(alloc, bytes) {
        Ok(name) => Ok(name),
        Err(NameFault::NoMemory) => Err(NoMemory),
        Err(_) => unreachable!(),
    }
}

/// The name of a letter and a number, as `n0`.
pub(crate) fn numbered(alloc: Global, letter: u8, number: u32) -> Result<Name, NoMemory>
    requires letter { (97 ≤ letter) × (letter ≤ 122) }
    ensures { IfOk result (λ n. n ≡ numbered letter number) }
{
    let mut text = List::new(alloc);
    text.push(letter)?;
    put_decimal(&mut text, number as u128)?;
    name(alloc, text.items())
}
