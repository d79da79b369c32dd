// Who pays, who is paid, and where: BIC, IBAN, creditor identifier.
#![tactic(auto)]

ghost use Rattle.std.specs.Prelude.{◌≡◌, true, [], ◌∷◌, ◌++◌, ◌⊎◌, ◌<◌, ◌≤◌, length, take, drop, eqb};
ghost use Rattle.text.specs.Truth.{both, either, at};
ghost use Rattle.text.specs.Quoted.{among};
ghost use Rattle.answers.specs.Given.{given_yes};
ghost use Rattle.check97.specs.Check.{leaves_one, in_range};
ghost use Rattle.accounts.specs.Bic.{bic_form, bic_given, bicfi_form, bicfi_given};
ghost use Rattle.accounts.specs.Head.{head};
ghost use Rattle.accounts.specs.Iban.{iban_form, iban_length, iban_given};
ghost use Rattle.accounts.specs.Identifier.{identifier_form, identifier_given};
ghost use Rattle.accounts.specs.Lengths.{length_of, length_table};

use answers::{Refusal, require};
use text::Class;

// How long an IBAN is, by its country, and 0 where there is no such country: a line for each first letter from A to Z, a byte (in hexadecimal) for each second.
// (0 stands for "no such country", as in document 01's constant of 676 entries and in `length_of` of specs.)
//   A   B   C   D   E   F   G   H   I   J   K   L   M   N   O   P   Q   R   S   T   U   V   W   X   Y   Z
const LENGTHS: [u8; 676] = *b"\
    \x00\x00\x00\x18\x00\x00\x00\x00\x00\x00\x00\x00\x00\x00\x00\x00\x00\x00\x00\x14\x00\x00\x00\x00\x00\x00\
    \x00\x00\x00\x00\x10\x00\x16\x00\x00\x00\x00\x00\x00\x00\x00\x00\x00\x00\x00\x00\x00\x00\x00\x00\x00\x00\
    \x00\x00\x00\x00\x00\x00\x00\x15\x00\x00\x00\x00\x00\x00\x00\x00\x00\x00\x00\x00\x00\x00\x00\x00\x1c\x18\
    \x00\x00\x00\x00\x16\x00\x00\x00\x00\x00\x12\x00\x00\x00\x00\x00\x00\x00\x00\x00\x00\x00\x00\x00\x00\x00\
    \x00\x00\x00\x00\x14\x00\x00\x00\x00\x00\x00\x00\x00\x00\x00\x00\x00\x00\x18\x00\x00\x00\x00\x00\x00\x00\
    \x00\x00\x00\x00\x00\x00\x00\x00\x12\x00\x00\x00\x00\x00\x00\x00\x00\x1b\x00\x00\x00\x00\x00\x00\x00\x00\
    \x00\x16\x00\x00\x00\x00\x00\x00\x17\x00\x00\x00\x00\x00\x00\x00\x00\x1b\x00\x00\x00\x00\x00\x00\x00\x00\
    \x00\x00\x00\x00\x00\x00\x00\x00\x00\x00\x00\x00\x00\x00\x00\x00\x00\x15\x00\x00\x1c\x00\x00\x00\x00\x00\
    \x00\x00\x00\x00\x16\x00\x00\x00\x00\x00\x00\x00\x00\x00\x00\x00\x00\x00\x1a\x1b\x00\x00\x00\x00\x00\x00\
    \x00\x00\x00\x00\x00\x00\x00\x00\x00\x00\x00\x00\x00\x00\x00\x00\x00\x00\x00\x00\x00\x00\x00\x00\x00\x00\
    \x00\x00\x00\x00\x00\x00\x00\x00\x00\x00\x00\x00\x00\x00\x00\x00\x00\x00\x00\x00\x00\x00\x00\x00\x00\x00\
    \x00\x00\x00\x00\x00\x00\x00\x00\x15\x00\x00\x00\x00\x00\x00\x00\x00\x00\x00\x14\x14\x15\x00\x00\x00\x00\
    \x00\x00\x1b\x00\x00\x00\x00\x00\x00\x00\x00\x00\x00\x00\x00\x00\x00\x00\x00\x1f\x00\x00\x00\x00\x00\x00\
    \x00\x00\x00\x00\x00\x00\x00\x00\x00\x00\x00\x12\x00\x00\x0f\x00\x00\x00\x00\x00\x00\x00\x00\x00\x00\x00\
    \x00\x00\x00\x00\x00\x00\x00\x00\x00\x00\x00\x00\x00\x00\x00\x00\x00\x00\x00\x00\x00\x00\x00\x00\x00\x00\
    \x00\x00\x00\x00\x00\x00\x00\x00\x00\x00\x00\x1c\x00\x00\x00\x00\x00\x00\x00\x19\x00\x00\x00\x00\x00\x00\
    \x00\x00\x00\x00\x00\x00\x00\x00\x00\x00\x00\x00\x00\x00\x00\x00\x00\x00\x00\x00\x00\x00\x00\x00\x00\x00\
    \x00\x00\x00\x00\x00\x00\x00\x00\x00\x00\x00\x00\x00\x00\x18\x00\x00\x00\x00\x00\x00\x00\x00\x00\x00\x00\
    \x00\x00\x00\x00\x18\x00\x00\x00\x13\x00\x18\x00\x1b\x00\x00\x00\x00\x00\x00\x00\x00\x00\x00\x00\x00\x00\
    \x00\x00\x00\x00\x00\x00\x00\x00\x00\x00\x00\x00\x00\x00\x00\x00\x00\x00\x00\x00\x00\x00\x00\x00\x00\x00\
    \x00\x00\x00\x00\x00\x00\x00\x00\x00\x00\x00\x00\x00\x00\x00\x00\x00\x00\x00\x00\x00\x00\x00\x00\x00\x00\
    \x16\x00\x00\x00\x00\x00\x00\x00\x00\x00\x00\x00\x00\x00\x00\x00\x00\x00\x00\x00\x00\x00\x00\x00\x00\x00\
    \x00\x00\x00\x00\x00\x00\x00\x00\x00\x00\x00\x00\x00\x00\x00\x00\x00\x00\x00\x00\x00\x00\x00\x00\x00\x00\
    \x00\x00\x00\x00\x00\x00\x00\x00\x00\x00\x00\x00\x00\x00\x00\x00\x00\x00\x00\x00\x00\x00\x00\x00\x00\x00\
    \x00\x00\x00\x00\x00\x00\x00\x00\x00\x00\x00\x00\x00\x00\x00\x00\x00\x00\x00\x00\x00\x00\x00\x00\x00\x00\
    \x00\x00\x00\x00\x00\x00\x00\x00\x00\x00\x00\x00\x00\x00\x00\x00\x00\x00\x00\x00\x00\x00\x00\x00\x00\x00\
    ";

// One of `A-Z 2-9`.
fn is_seventh(c: u8) -> bool
    ensures { result ≡ among "A-Z 2-9" c }
{
    text::is_in(Class::Capital, c) || (b'2'..=b'9').contains(&c)
}

// One of `A-N P-Z 0-9`.
fn is_eighth(c: u8) -> bool
    ensures { result ≡ among "A-N P-Z 0-9" c }
{
    c != b'O' && text::is_in(Class::CapitalOrDigit, c)
}

// Whether a BIC may have n characters.
fn is_length(n: usize) -> bool
    ensures { result ≡ either (eqb n 8) (eqb n 11) }
{
    n == 8 || n == 11
}

// The form of a BIC.
fn is_bic(s: &[u8]) -> bool
    ensures { result ≡ bic_form s.now }
{
    is_length(s.len())
        && text::all_in(Class::Capital, &s[..6])
        && is_seventh(s[6])
        && is_eighth(s[7])
        && text::all_in(Class::CapitalOrDigit, &s[8..])
}

// A BIC: yes, or 7.
pub fn bic(s: &[u8]) -> Result<(), Refusal>
    ensures { given_yes result ≡ bic_given s.now }
{
    require(is_bic(s), Refusal::Form)
}

// The wider form of a BIC.
fn is_bicfi(s: &[u8]) -> bool
    ensures { result ≡ bicfi_form s.now }
{
    is_length(s.len())
        && text::all_in(Class::CapitalOrDigit, &s[..4])
        && text::all_in(Class::Capital, &s[4..6])
        && text::all_in(Class::CapitalOrDigit, &s[6..])
}

// A BIC in its wider form: yes, or 7.
pub fn bicfi(s: &[u8]) -> Result<(), Refusal>
    ensures { given_yes result ≡ bicfi_given s.now }
{
    require(is_bicfi(s), Refusal::Form)
}

// Two capitals, two digits.
fn is_head(s: &[u8]) -> bool
    requires { 4 ≤ length s.now }
    ensures { result ≡ head s.now }
{
    text::all_in(Class::Capital, &s[..2]) && text::all_in(Class::Digit, &s[2..4])
}

// Whether the check digits, at 2 and 3, are 02 to 98, and the number of what stands from m on, with the first four behind it, leaves 1.
fn is_checked(s: &[u8], m: usize) -> bool
    requires { (4 ≤ m) × (m ≤ length s.now) }
    ensures { result ≡ both (leaves_one (drop m s.now ++ take 4 s.now)) (in_range s.now) }
{
    (2..=98).contains(&text::pair(s[2], s[3])) && check97::leaves_one(&s[m..], &s[..4])
}

// The form of an IBAN.
fn is_iban(s: &[u8]) -> bool
    ensures { result ≡ iban_form s.now }
{
    (15..=34).contains(&s.len()) && is_head(s) && text::all_in(Class::CapitalOrDigit, &s[4..])
}

// An entry of the table.
fn entry(k: usize) -> u8
    requires { k < 676 }
    ensures value { result ≡ at length_table k }
    ensures fact { (result ≡ 0) ⊎ ((15 ≤ result) × (result ≤ 34)) }
{
    LENGTHS[k]
}

// How long an IBAN of the country is that two capitals name; 0 for none.
// (0 stands for "no such country", as in document 01's constant of 676 entries and in `length_of` of specs.)
fn length_of(a: u8, b: u8) -> u8
    requires { (65 ≤ a) × (a ≤ 90) × (65 ≤ b) × (b ≤ 90) }
    ensures { result ≡ length_of (a ∷ b ∷ []) }
{
    entry(26 * usize::from(a - b'A') + usize::from(b - b'A'))
}

// Whether an IBAN is as long as its country's are.
fn is_long(s: &[u8]) -> bool
    requires { iban_form s.now ≡ true }
    ensures { result ≡ iban_length s.now }
{
    s.len() == usize::from(length_of(s[0], s[1]))
}

// An IBAN: yes, or 7, or 19, or 8.
pub fn iban(s: &[u8]) -> Result<(), Refusal>
    ensures { given_yes result ≡ iban_given s.now }
{
    require(is_iban(s), Refusal::Form)?;
    require(is_long(s), Refusal::Length)?;
    require(is_checked(s, 4), Refusal::CheckDigits)
}

// The form of a creditor identifier.
fn is_identifier(s: &[u8]) -> bool
    ensures { result ≡ identifier_form s.now }
{
    (8..=35).contains(&s.len())
        && is_head(s)
        && text::all_in(Class::LetterOrDigit, &s[4..7])
        && text::all_in(Class::Reference, &s[7..])
        && text::some_in(Class::LetterOrDigit, &s[7..])
}

// A creditor identifier: yes, or 7, or 8.
pub fn creditor_id(s: &[u8]) -> Result<(), Refusal>
    ensures { given_yes result ≡ identifier_given s.now }
{
    require(is_identifier(s), Refusal::Form)?;
    require(is_checked(s, 7), Refusal::CheckDigits)
}
