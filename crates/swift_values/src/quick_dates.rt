// Dates.
ghost use Rattle.std.specs.Prelude.{◌≡◌, true, ℕ, ◌+◌, ◌-◌, ◌≤◌, length, IfSome};
ghost use Rattle.calendar.specs.Date.{days_in};
ghost use Rattle.swift_values.specs.Dates.{Dated, RealDay};
ghost use Rattle.swift_values.specs.Stands.{Stands};

use crate::eights::{digit_pair, pair_at};
use crate::{plain, room};
use profile::Simple;

// Digits and hyphens stand at a place, as in YYYY-MM-DD.
fn dated(m: &[u8], p: usize) -> bool
    requires { p + 10 ≤ length m.now }
    ensures { result ≡ true → Dated m.now p }
{
    digit_pair(m, p)
        & digit_pair(m, p + 2)
        & (m[p + 4] == b'-')
        & digit_pair(m, p + 5)
        & (m[p + 7] == b'-')
        & digit_pair(m, p + 8)
}

// How many days a month has in any year; both numbers are 528 more.
// (The `days_in` of calendar goes by the year as well, and by numbers from which the 48s of their digits are taken: by it this would be longer.)
fn days_of(month: u64) -> u64
    ensures { (y : ℕ) → result ≤ days_in y (month - 528) + 528 }
{
    match month {
        530 => 556,
        532 | 534 | 537 | 539 => 558,
        _ => 559,
    }
}

// A day that every month has, or how many days the month has: a number of days that is not too many.
fn days_for(month: u64, day: u64) -> u64
    ensures { (y : ℕ) → result ≤ days_in y (month - 528) + 528 }
{
    if day <= 556 {
        return day;
    }
    days_of(month)
}

// The year is not 0, and the month has the day in any year.
fn real_day(m: &[u8], p: usize) -> bool
    requires { p + 10 ≤ length m.now }
    ensures { result ≡ true → RealDay m.now p }
{
    let year = pair_at(m, p) + pair_at(m, p + 2);
    let month = pair_at(m, p + 5);
    let day = pair_at(m, p + 8);
    (year >= 1057) & (month >= 529) & (month <= 540) & (day >= 529) & (day <= days_for(month, day))
}

// A date that is no 29 February stands at a place, and `<` behind it: where it ends.
fn quick_date(m: &[u8], at: usize) -> Option<usize>
    ensures { IfSome result (Stands Simple.Date m.now at) }
{
    if !room(m, at, 11) {
        return None;
    }
    if dated(m, at) & real_day(m, at) & (m[at + 10] == b'<') {
        return Some(at + 10);
    }
    None
}

// A date stands at a place, and `<` behind it: where it ends.
pub fn date(m: &[u8], at: usize) -> Option<usize>
    ensures { IfSome result (Stands Simple.Date m.now at) }
{
    quick_date(m, at).or_else(|| plain(Simple::Date, m, at))
}
