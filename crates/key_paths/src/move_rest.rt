ghost use Rattle.std.specs.Prelude.{◌≡◌, ◌<◌, ◌^◌, ◌-ℤ◌, ◌*ℤ◌, ℕ, length, unsigned_abs};
ghost use Rattle.checked_fraction.specs.Terms.{num, IsNarrow};
ghost use Rattle.key_rows.specs.Terms.{path_uses};
ghost use Rattle.key_paths.specs.inner.Held.{IsOnce};

use key_rows::{shift_back_list, shift_list};
use net_core::{LinkId, List};

/// Moves a demand's bound from one path to another, in what the keys leave of the links.
pub(crate) fn move_rest(rest: &mut List<i128>, from: &[LinkId], to: &[LinkId], bound: &i64)
    requires from { IsOnce (length rest.old) from.now }
    requires to { IsOnce (length rest.old) to.now }
    requires bound { IsNarrow bound.now }
    requires rest { (k : ℕ) → unsigned_abs (num rest.old k) < 2 ^ 76 }
    ensures count { length rest.new ≡ length rest.old }
    ensures each { (k : ℕ) → num rest.new k ≡ num rest.old k -ℤ (bound.now *ℤ (path_uses to.now k -ℤ path_uses from.now k)) }
{
    shift_list(rest, from, bound);
    shift_back_list(rest, to, bound);
}
