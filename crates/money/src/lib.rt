// Counts and amounts: whole numbers, amounts in cents, never a float.
#![tactic(auto)]

ghost use Rattle.std.specs.Prelude.{◌≡◌, true, ◌≤◌, ◌<◌, length, drop};
ghost use Rattle.text.specs.Truth.{either, every};
ghost use Rattle.text.specs.Quoted.{is, decimal};
ghost use Rattle.text.specs.Classes.{digit};
ghost use Rattle.answers.specs.Given.{given_worth};
ghost use Rattle.money.specs.Count.{count_form, count_given};
ghost use Rattle.money.specs.Amount.{point_form, as_two_digits, most, amount_given};
ghost use Rattle.money.specs.Plain.{without_zeros};

use answers::{Refusal, require};
use text::Class;

// Which range is asked for: an item's, or the header total's.
#[derive(Clone, Copy)]
pub enum Range {
    Item,
    Total,
}

// The most cents of the header total.
pub const MOST_TOTAL: u64 = 99_999_999_999_999_999;

// The number that at most 15 digits write.
fn number(s: &[u8]) -> u64
    requires s_len_bound { length s.now ≤ 15 }
    requires s_value { every digit s.now ≡ true }
    ensures { result ≡ decimal s.now }
{
    let mut n = 0;
    for c in s {
        n = n * 10 + u64::from(*c - b'0');
    }
    n
}

// The form of a count.
fn is_count(s: &[u8]) -> bool
    ensures { result ≡ count_form s.now }
{
    (1..=15).contains(&s.len()) && text::all_in(Class::Digit, s)
}

// A count: its number, or 7.
pub fn count(s: &[u8]) -> Result<u64, Refusal>
    ensures { given_worth result ≡ count_given s.now }
{
    require(is_count(s), Refusal::Form)?;
    Ok(number(s))
}

// Nothing, or a point and one or two digits.
fn is_fraction(s: &[u8]) -> bool
    ensures { result ≡ either (is "" s.now) (point_form s.now) }
{
    match s {
        [] => true,
        [b'.', digits @ ..] => (1..=2).contains(&digits.len())
            && text::all_in(Class::Digit, digits),
        _ => false,
    }
}

// What the fraction is worth, in cents.
fn fraction(s: &[u8]) -> u64
    requires { either (is "" s.now) (point_form s.now) ≡ true }
    ensures value { result ≡ decimal (as_two_digits (drop 1 s.now)) }
    ensures upper_bound { result < 100 }
{
    if s.is_empty() {
        return 0;
    }
    let f = number(&s[1..]);
    if s.len() == 2 { f * 10 } else { f }
}

// The most cents that a range allows.
fn most_of(k: Range) -> u64
    ensures { result ≡ most k }
{
    match k {
        Range::Item => 99_999_999_999,
        Range::Total => MOST_TOTAL,
    }
}

// An amount of the range: its cents, or 7, or 9.
pub fn amount(k: Range, s: &[u8]) -> Result<u64, Refusal>
    ensures { given_worth result ≡ amount_given k s.now }
{
    let (euros, rest) = s.split_at(text::run_in(Class::Digit, s));
    require(
        (1..=15).contains(&euros.len()) && is_fraction(rest),
        Refusal::Form,
    )?;
    let cents = number(euros) * 100 + fraction(rest);
    require((1..=most_of(k)).contains(&cents), Refusal::Range)?;
    Ok(cents)
}

// How many zeros in front of a number are needless: its last digit stays.
pub fn needless(s: &[u8]) -> usize
    ensures { (without_zeros s.now ≡ drop result s.now) × (result ≤ length s.now) }
{
    let zeros = s.iter().take_while(|c| **c == b'0').count();
    zeros.min(s.len().saturating_sub(1))
}
