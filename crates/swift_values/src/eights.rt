// Blocks of bytes of one class, and digits by weights.
ghost use Rattle.std.specs.Prelude.{◌≡◌, true, ◌+◌, ◌≤◌, length};
ghost use Rattle.text.specs.Truth.{every};
ghost use Rattle.text.specs.Classes.{digit, capital_or_digit};
ghost use Rattle.swift_values.specs.Blocks.{All, AllPassed, light, balance};
ghost use Rattle.swift_values.specs.Dates.{pair_at};

use crate::classes::{in_cap, in_digit};

// Eight bytes at a place pass, each by a test of its place in the eight.
// (By the place, which the test is told and the contract speaks of: over a part of the message both would begin anew, and it gets no shorter.)
pub(crate) fn eight<F: Fn(usize, u8) -> bool>(m: &[u8], p: usize, passes: F) -> bool
    requires room { p + 8 ≤ length m.now }
    requires calls { F.IsAlwaysCallable passes }
    ensures { result ≡ true → AllPassed (F.post passes) m.now p 8 }
{
    let mut r = true;
    for i in 0..8 {
        r &= passes(i, m[p + i]);
    }
    r
}

// Eight digits stand at a place.
pub(crate) fn digits(m: &[u8], p: usize) -> bool
    requires { p + 8 ≤ length m.now }
    ensures { result ≡ true → All digit m.now p 8 }
{
    eight(m, p, |_, c| in_digit(c))
}

// Eight capitals or digits stand at a place.
pub(crate) fn caps(m: &[u8], p: usize) -> bool
    requires { p + 8 ≤ length m.now }
    ensures { result ≡ true → All capital_or_digit m.now p 8 }
{
    eight(m, p, |_, c| in_cap(c))
}

// Two digits stand at a place.
pub(crate) fn digit_pair(m: &[u8], p: usize) -> bool
    requires { p + 2 ≤ length m.now }
    ensures { result ≡ true → All digit m.now p 2 }
{
    in_digit(m[p]) & in_digit(m[p + 1])
}

// Two bytes as a number, as they are: 528 more than two digits write.
pub(crate) fn pair_at(m: &[u8], p: usize) -> u64
    requires { p + 2 ≤ length m.now }
    ensures { (result ≡ pair_at m.now p) × (result ≤ 2805) }
{
    u64::from(m[p]) * 10 + u64::from(m[p + 1])
}

// Eight digits, each times its weight, as they are: 48 more than the digit.
// (By the place, as the contract speaks of the message and the weights: a `zip` of a part and the weights is no shorter.)
pub(crate) fn row(m: &[u8], p: usize, w: [u16; 8]) -> u64
    requires { (p + 8 ≤ length m.now) × All digit m.now p 8 × (every light w ≡ true) }
    ensures { (result ≡ balance m.now p w 8) × (result ≤ 43776) }
{
    let mut s: u16 = 0;
    for i in 0..8 {
        s += u16::from(m[p + i]) * w[i];
    }
    u64::from(s)
}
