ghost use Rattle.std.specs.Prelude.{◌≡◌, ◌<◌, ◌≤◌, ◌+◌, ◌^◌, ◌+ℤ◌, ◌-ℤ◌, ◌*ℤ◌, ℕ, length, slice_set, slice_index_or, pos, unsigned_abs};
ghost use Rattle.checked_fraction.specs.Terms.{num, IsNarrow};
ghost use Rattle.key_rows.specs.Names.{path_uses, IsShortPath};

use net_core::{LinkId, List};

/// `a + b` of what is left of a link and a bound.
fn plus(a: &i128, b: &i64) -> i128
    requires a { unsigned_abs a.now ≤ 2 ^ 120 }
    requires b { IsNarrow b.now }
    ensures value { result ≡ a.now +ℤ b.now }
    ensures bound { unsigned_abs result ≤ unsigned_abs a.now + 2 ^ 62 }
{
    *a + *b as i128
}

/// Adds a number at each link of a path.
fn shift(rest: &mut [i128], path: &[LinkId], by: &i64)
    requires path { IsShortPath (length rest.old) path.now }
    requires by { IsNarrow by.now }
    requires rest { (k : ℕ) → unsigned_abs (num rest.old k) ≤ 2 ^ 101 }
    ensures count { length rest.new ≡ length rest.old }
    ensures each { (k : ℕ) → num rest.new k ≡ num rest.old k +ℤ by.now *ℤ path_uses path.now k }
    ensures bound { (k : ℕ) → unsigned_abs (num rest.new k) ≤ unsigned_abs (num rest.old k) + 2 ^ 70 }
{
    for link in path {
        let at = link.0 as usize;
        rest[at] = plus(&rest[at], by);
    }
}

/// Adds a number at each link of a path, in what is left of the links.
/// It takes time in the links of the path.
pub fn shift_list(rest: &mut List<i128>, path: &[LinkId], by: &i64)
    requires path { IsShortPath (length rest.old) path.now }
    requires by { IsNarrow by.now }
    requires rest { (k : ℕ) → unsigned_abs (num rest.old k) ≤ 2 ^ 101 }
    ensures count { length rest.new ≡ length rest.old }
    ensures each { (k : ℕ) → num rest.new k ≡ num rest.old k +ℤ by.now *ℤ path_uses path.now k }
    ensures bound { (k : ℕ) → unsigned_abs (num rest.new k) ≤ unsigned_abs (num rest.old k) + 2 ^ 70 }
{
    shift(rest.items_mut(), path, by);
}

/// The opposite number.
fn negated(a: &i64) -> i64
    requires { IsNarrow a.now }
    ensures value { result ≡ pos 0 -ℤ a.now }
    ensures narrow { IsNarrow result }
{
    -*a
}

/// Takes a number away at each link of a path, in what is left of the links. It takes time in the links of the path, and no memory.
pub fn shift_back_list(rest: &mut List<i128>, path: &[LinkId], by: &i64)
    requires path { IsShortPath (length rest.old) path.now }
    requires by { IsNarrow by.now }
    requires rest { (k : ℕ) → unsigned_abs (num rest.old k) ≤ 2 ^ 101 }
    ensures count { length rest.new ≡ length rest.old }
    ensures each { (k : ℕ) → num rest.new k ≡ num rest.old k -ℤ by.now *ℤ path_uses path.now k }
    ensures bound { (k : ℕ) → unsigned_abs (num rest.new k) ≤ unsigned_abs (num rest.old k) + 2 ^ 70 }
{
    shift_list(rest, path, &negated(by));
}
