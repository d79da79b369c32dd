// Dates and times: what stands on a calendar and a clock.
#![tactic(auto)]

ghost use Rattle.std.specs.Prelude.{◌≡◌, ◌+◌, ◌≤◌, ◌<◌, length};
ghost use Rattle.text.specs.Truth.{part};
ghost use Rattle.text.specs.Quoted.{among, decimal};
ghost use Rattle.answers.specs.Given.{given_yes};
ghost use Rattle.calendar.specs.Pattern.{stands, matches};
ghost use Rattle.calendar.specs.Date.{leap, days_in, real_day, date_form, date_given};
ghost use Rattle.calendar.specs.Time.{clock_form, offset_form, zone_form, end_form, time_form, time_given};

use answers::{Refusal, require};
use text::Class;

// Whether c may stand where the pattern holds p: a letter stands for a digit.
fn may_stand(p: u8, c: u8) -> bool
    ensures { result ≡ stands p c }
{
    if p.is_ascii_alphabetic() {
        text::is_in(Class::Digit, c)
    } else {
        c == p
    }
}

// Whether s is written as the pattern t.
fn is_written(t: &[u8], s: &[u8]) -> bool
    ensures { result ≡ matches t.now s.now }
{
    t.len() == s.len() && t.iter().zip(s).all(|(p, c)| may_stand(*p, *c))
}

// The number of the two characters at i.
fn two_at(s: &[u8], i: usize) -> u32
    requires { i + 2 ≤ length s.now }
    ensures value { result ≡ decimal (part i 2 s.now) }
    ensures upper_bound { result < 2560 }
{
    text::pair(s[i], s[i + 1])
}

// Whether y is a leap year.
fn is_leap(y: u32) -> bool
    ensures { result ≡ leap y }
{
    y % 4 == 0 && (y % 100 != 0 || y % 400 == 0)
}

// How many days the month m of the year y has.
fn days_in(y: u32, m: u32) -> u32
    ensures { result ≡ days_in y m }
{
    match m {
        2 if is_leap(y) => 29,
        2 => 28,
        4 | 6 | 9 | 11 => 30,
        _ => 31,
    }
}

// Whether the month m of the year y has a day d.
fn is_day(y: u32, m: u32, d: u32) -> bool
    ensures { result ≡ real_day y m d }
{
    (1..=12).contains(&m) && (1..=days_in(y, m)).contains(&d)
}

// Whether s writes a day of the calendar, `YYYY-MM-DD`.
fn is_date(s: &[u8]) -> bool
    ensures { result ≡ date_form s.now }
{
    is_written(b"YYYY-MM-DD", s)
        && {
            let y = two_at(s, 0) * 100 + two_at(s, 2);
            1 <= y && is_day(y, two_at(s, 5), two_at(s, 8))
        }
}

// A date: yes, or 7.
pub fn date(s: &[u8]) -> Result<(), Refusal>
    ensures { given_yes result ≡ date_given s.now }
{
    require(is_date(s), Refusal::Form)
}

// Whether s writes a time of day, `hh:mm:ss`.
fn is_clock(s: &[u8]) -> bool
    ensures { result ≡ clock_form s.now }
{
    is_written(b"hh:mm:ss", s) && two_at(s, 0) <= 23 && two_at(s, 3) <= 59 && two_at(s, 6) <= 59
}

// Whether s writes an offset of at most 14 hours, `+hh:mm` or `-hh:mm`.
fn is_offset(s: &[u8]) -> bool
    ensures { result ≡ offset_form s.now }
{
    s.len() == 6
        && is_sign(s[0])
        && is_written(b"hh:mm", &s[1..])
        && two_at(s, 4) <= 59
        && two_at(s, 1) * 60 + two_at(s, 4) <= 840
}

// Whether c is one of `+ -`.
fn is_sign(c: u8) -> bool
    ensures { result ≡ among "+ -" c }
{
    matches!(c, b'+' | b'-')
}

// Whether s writes a zone: nothing, `Z`, or an offset.
fn is_zone(s: &[u8]) -> bool
    ensures { result ≡ zone_form s.now }
{
    s.is_empty() || b"Z".as_slice() == s || is_offset(s)
}

// Whether s may end a time: a fraction or none, then the zone.
fn is_end(s: &[u8]) -> bool
    ensures { result ≡ end_form s.now }
{
    if s.len() >= 4 && is_written(b".fff", &s[..4]) {
        is_zone(&s[4..])
    } else {
        is_zone(s)
    }
}

// Whether s writes a date, `T`, a time of day and what may end it.
fn is_time(s: &[u8]) -> bool
    ensures { result ≡ time_form s.now }
{
    19 <= s.len() && is_date(&s[..10]) && s[10] == b'T' && is_clock(&s[11..19]) && is_end(&s[19..])
}

// A time: yes, or 7.
pub fn time(s: &[u8]) -> Result<(), Refusal>
    ensures { given_yes result ≡ time_given s.now }
{
    require(is_time(s), Refusal::Form)
}
