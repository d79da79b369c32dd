// IBANs: how they begin, German ones by weights, and those of other countries.
ghost use Rattle.std.specs.Prelude.{◌≡◌, true, ◌∷◌, [], ◌+◌, ◌%◌, ◌≤◌, length, get_or, IfSome};
ghost use Rattle.text.specs.Truth.{part, between};
ghost use Rattle.text.specs.Classes.{digit, capital_or_digit};
ghost use Rattle.text.specs.Quoted.{decimal};
ghost use Rattle.swift_values.specs.Blocks.{All, number, Headed, Checked, Long};
ghost use Rattle.swift_values.specs.Stands.{Stands};

use crate::classes::{in_cap, in_capital, in_digit};
use crate::eights::{digits, row};
use crate::runs::passing;
use crate::{end_behind, plain, room};
use profile::Simple;

// Two capitals, two digits.
pub(crate) fn heads(m: &[u8], p: usize) -> bool
    requires { p + 4 ≤ length m.now }
    ensures { result ≡ true → Headed m.now p }
{
    in_capital(m[p]) & in_capital(m[p + 1]) & in_digit(m[p + 2]) & in_digit(m[p + 3])
}

// The check digits are 02 to 98.
pub(crate) fn ranged(m: &[u8], p: usize) -> bool
    requires { p + 4 ≤ length m.now }
    ensures { result ≡ true → between 2 98 (decimal (get_or m.now (p + 2) 0 ∷ get_or m.now (p + 3) 0 ∷ [])) ≡ true }
{
    let n = text::pair(m[p + 2], m[p + 3]);
    (n >= 2) & (n <= 98)
}

// The number of a German IBAN leaves 1. The weights are what the powers of ten leave, by 97; 54 is what the letters add and the 48s take.
fn leaves_german(m: &[u8], p: usize) -> bool
    requires { (p + 22 ≤ length m.now) × All digit m.now (p + 2) 20 × (get_or m.now p 0 ≡ 68) × (get_or m.now (p + 1) 0 ≡ 69) }
    ensures { result ≡ true → number (number 0 (part (p + 4) 18 m.now)) (part p 4 m.now) % 97 ≡ 1 }
{
    let a = row(m, p + 2, [10, 1, 56, 25, 51, 73, 17, 89]);
    let b = row(m, p + 10, [38, 62, 45, 53, 15, 50, 5, 49]);
    let c = row(m, p + 14, [0, 0, 0, 0, 34, 81, 76, 27]);
    (a + b + c + 54) % 97 == 1
}

// Twenty digits stand at a place.
fn digits_20(m: &[u8], p: usize) -> bool
    requires { p + 20 ≤ length m.now }
    ensures { result ≡ true → All digit m.now p 20 }
{
    digits(m, p) & digits(m, p + 8) & digits(m, p + 12)
}

// The 22 characters at a place are a German IBAN.
fn german(m: &[u8], at: usize) -> bool
    requires { at + 22 ≤ length m.now }
    ensures { result ≡ true → Checked m.now at 22 × (get_or m.now at 0 ≡ 68) × (get_or m.now (at + 1) 0 ≡ 69) }
{
    m[at] == b'D'
        && m[at + 1] == b'E'
        && digits_20(m, at + 2)
        && ranged(m, at)
        && leaves_german(m, at)
}

// A German IBAN stands at a place, and `<` behind it: where it ends.
fn usual_iban(m: &[u8], at: usize) -> Option<usize>
    ensures { IfSome result (Stands Simple.Iban m.now at) }
{
    let e = end_behind(m, at, 22)?;
    german(m, at).then_some(e)
}

// How long the IBANs of a country are, by its two letters.
// (The `length_of` of accounts asks for two capitals, and no function that another crate can call has a `requires`; here any two bytes may stand.)
fn length_of(a: u8, b: u8) -> Option<usize>
    ensures { IfSome result (Long (a ∷ b ∷ [])) }
{
    match &[a, b] {
        b"NO" => Some(15),
        b"BE" => Some(16),
        b"DK" | b"FI" | b"NL" => Some(18),
        b"SI" => Some(19),
        b"AT" | b"EE" | b"LT" | b"LU" => Some(20),
        b"CH" | b"HR" | b"LI" | b"LV" => Some(21),
        b"BG" | b"DE" | b"GB" | b"IE" | b"VA" => Some(22),
        b"GI" => Some(23),
        b"AD" | b"CZ" | b"ES" | b"RO" | b"SE" | b"SK" => Some(24),
        b"PT" => Some(25),
        b"IS" => Some(26),
        b"FR" | b"GR" | b"IT" | b"MC" | b"SM" => Some(27),
        b"CY" | b"HU" | b"PL" => Some(28),
        b"MT" => Some(31),
        _ => None,
    }
}

// The n capitals and digits at a place are an IBAN but for its length.
fn checked(m: &[u8], at: usize, n: usize) -> bool
    requires { (at + n ≤ length m.now) × (15 ≤ n) × All capital_or_digit m.now at n }
    ensures { result ≡ true → Checked m.now at n }
{
    heads(m, at) && ranged(m, at) && check97::leaves_one(&m[at + 4..at + n], &m[at..at + 4])
}

// An IBAN of up to 32 characters stands at a place, and `<` behind it: where it ends.
fn other_iban(m: &[u8], at: usize) -> Option<usize>
    ensures { IfSome result (Stands Simple.Iban m.now at) }
{
    if !room(m, at, 33) {
        return None;
    }
    let n = passing(m, at, |b, _| in_cap(b));
    let k = length_of(m[at], m[at + 1])?;
    if (n == k) && (m[at + n] == b'<') && checked(m, at, n) {
        return Some(at + n);
    }
    None
}

// An IBAN stands at a place, and `<` behind it: where it ends.
// The chain is that of `identifier` and `name`: a function over their readers would be longer, since it names what each reader tells.
pub fn iban(m: &[u8], at: usize) -> Option<usize>
    ensures { IfSome result (Stands Simple.Iban m.now at) }
{
    usual_iban(m, at)
        .or_else(|| other_iban(m, at))
        .or_else(|| plain(Simple::Iban, m, at))
}
