// Creditor identifiers.
ghost use Rattle.std.specs.Prelude.{◌≡◌, true, ◌+◌, ◌*◌, ◌%◌, ◌≤◌, length, get_or, IfSome};
ghost use Rattle.text.specs.Truth.{part};
ghost use Rattle.text.specs.Classes.{reference_set, digit, letter_or_digit};
ghost use Rattle.swift_values.specs.Blocks.{All, number, Headed, Identified};
ghost use Rattle.swift_values.specs.Stands.{Stands};

use crate::classes::{in_business, in_ref};
use crate::eights::{digits, row};
use crate::quick_ibans::{heads, ranged};
use crate::runs::passing;
use crate::{end_behind, ended, plain, room};
use profile::Simple;

// Three letters or digits stand at a place.
fn business(m: &[u8], p: usize) -> bool
    requires { p + 3 ≤ length m.now }
    ensures { result ≡ true → All letter_or_digit m.now p 3 }
{
    in_business(m[p]) & in_business(m[p + 1]) & in_business(m[p + 2])
}

// The 7 + k characters at a place, of which the last k are of the reference set, are an identifier with a letter or a digit at the eighth place.
fn identified(m: &[u8], at: usize, k: usize) -> bool
    requires { (at + 7 + k ≤ length m.now) × (1 ≤ k) × All reference_set m.now (at + 7) k }
    ensures { result ≡ true → Identified m.now at k }
{
    heads(m, at)
        && business(m, at + 4)
        && in_business(m[at + 7])
        && ranged(m, at)
        && check97::leaves_one(&m[at + 7..at + 7 + k], &m[at..at + 4])
}

// Two capitals and two digits, each times its weight, as they are.
fn opening(m: &[u8], p: usize) -> u64
    requires { p + 4 ≤ length m.now }
    ensures { (result ≡ get_or m.now p 0 * 9 + get_or m.now (p + 1) 0 * 3 + get_or m.now (p + 2) 0 * 10 + get_or m.now (p + 3) 0) × (result ≤ 5865) }
{
    u64::from(m[p]) * 9 + u64::from(m[p + 1]) * 3 + u64::from(m[p + 2]) * 10 + u64::from(m[p + 3])
}

// The number of an identifier of 18 characters leaves 1, of which the last eleven are digits. The weights are what the powers of ten leave; 79 is what all take away.
fn leaves_18(m: &[u8], p: usize) -> bool
    requires { (p + 18 ≤ length m.now) × All digit m.now (p + 7) 11 × Headed m.now p }
    ensures { result ≡ true → number (number 0 (part (p + 7) 11 m.now)) (part p 4 m.now) % 97 ≡ 1 }
{
    let h = opening(m, p);
    let a = row(m, p + 7, [62, 45, 53, 15, 50, 5, 49, 34]);
    let b = row(m, p + 10, [0, 0, 0, 0, 0, 81, 76, 27]);
    (a + b + h + 79) % 97 == 1
}

// Eleven digits stand at a place: eight, and the last eight.
fn digits_11(m: &[u8], p: usize) -> bool
    requires { p + 11 ≤ length m.now }
    ensures { result ≡ true → All digit m.now p 11 }
{
    digits(m, p) & digits(m, p + 3)
}

// The 18 characters at a place are an identifier with digits from the eighth on.
fn identified_18(m: &[u8], at: usize) -> bool
    requires { at + 18 ≤ length m.now }
    ensures { result ≡ true → Identified m.now at 11 }
{
    heads(m, at) && business(m, at + 4) && digits_11(m, at + 7) && ranged(m, at) && leaves_18(m, at)
}

// An identifier of 18 characters with digits from the eighth on stands at a place, and `<` behind it: where it ends.
fn usual_identifier(m: &[u8], at: usize) -> Option<usize>
    ensures { IfSome result (Stands Simple.Identifier m.now at) }
{
    let e = end_behind(m, at, 18)?;
    identified_18(m, at).then_some(e)
}

// An identifier with a letter or a digit at the eighth place stands at a place, and `<` behind it: where it ends.
fn quick_identifier(m: &[u8], at: usize) -> Option<usize>
    ensures { IfSome result (Stands Simple.Identifier m.now at) }
{
    if !room(m, at, 40) {
        return None;
    }
    let k = passing(m, at + 7, |b, _| in_ref(b));
    if (k <= 28) && ended(m, at + 7, k) && identified(m, at, k) {
        return Some(at + 7 + k);
    }
    None
}

// A creditor identifier stands at a place, and `<` behind it: where it ends.
pub fn identifier(m: &[u8], at: usize) -> Option<usize>
    ensures { IfSome result (Stands Simple.Identifier m.now at) }
{
    usual_identifier(m, at)
        .or_else(|| quick_identifier(m, at))
        .or_else(|| plain(Simple::Identifier, m, at))
}
