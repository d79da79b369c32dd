// One record of a recording: 64 bytes, field by field; its key, and its instant.
#![tactic(auto)]

ghost use Rattle.std.specs.Prelude.{◌≡◌, true, ◌+◌, ◌-◌, ◌≤◌, ◌<◌, length, eqb, IfSome};
ghost use Rattle.std.specs.Option.{is_some};
ghost use Rattle.text.specs.Truth.{part};
ghost use Rattle.text.specs.Quoted.{byte, among, decimal};
ghost use Rattle.calendar.specs.Date.{date_form};
ghost use Rattle.calendar.specs.Time.{offset_form};
ghost use Rattle.recording.specs.Instant.{years_days, months_days, days_before, seconds_before, offset_seconds, as_written, instant};
ghost use Rattle.recording.specs.Record.{unpadded, stamp_form, names_form, record_form, key_in, enters, line_of, line_as};

use codes::Element;

// How many bytes a record has.
pub const LENGTH: usize = 64;

// Whether a record enters a bulk or withdraws one.
#[derive(Clone, Copy, PartialEq, Eq)]
pub enum Side {
    Entry,
    Withdrawal,
}

// What a record says: an entry or a withdrawal, of which key, at which instant.
#[derive(Clone, Copy)]
pub struct Line {
    pub side: Side,
    pub key: [u8; naming::LENGTH],
    pub instant: u64,
}

// How many bytes of a field stand before the spaces behind its value.
// (Its like in `words` asks another test: one function over both would take a closure and the law of what it tells, for this one line.)
fn reach(f: &[u8]) -> usize
    ensures { result ≡ length (unpadded f.now) }
{
    f.len() - f.iter().rev().take_while(|c| **c == b' ').count()
}

// A field's value, without the spaces behind it.
fn value(f: &[u8]) -> &[u8]
    ensures { result.now ≡ unpadded f.now }
{
    let e = reach(f);
    &f[..e]
}

// The number of the two characters at i. (Not calendar's: both must stand there, and by a rule of the project no public function has a `requires`.)
fn two_at(s: &[u8], i: usize) -> u64
    requires { i + 2 ≤ length s.now }
    ensures value { result ≡ decimal (part i 2 s.now) }
    ensures upper_bound { result < 2560 }
{
    u64::from(text::pair(s[i], s[i + 1]))
}

// How many days the first n years have.
fn years_days(n: u64) -> u64
    requires { n < 300000 }
    ensures value { result ≡ years_days n }
    ensures upper_bound { result < 110000000 }
{
    n * 365 + n / 4 + n / 400 - n / 100
}

// How many days of the year y lie before its month m. From March on the months have 153 days in five.
fn months_days(y: u64, m: u64) -> u64
    requires { (1 ≤ y) × (y < 300000) × (1 ≤ m) × (m ≤ 12) }
    ensures value { result ≡ months_days y (m - 1) }
    ensures upper_bound { result < 400 }
{
    if m < 3 {
        return (m - 1) * 31;
    }
    let more = years_days(y) - years_days(y - 1) - 365;
    more + 59 + (153 * (m - 3) + 2) / 5
}

// How many days lie before a date.
fn days_before(s: &[u8]) -> u64
    requires { date_form s.now ≡ true }
    ensures value { result ≡ days_before s.now }
    ensures upper_bound { result < 200000000 }
{
    let y = two_at(s, 0) * 100 + two_at(s, 2);
    let m = two_at(s, 5);
    let d = two_at(s, 8);
    years_days(y - 1) + months_days(y, m) + (d - 1)
}

// How many seconds of a day lie before a time of day.
fn seconds_before(s: &[u8]) -> u64
    requires { length s.now ≡ 8 }
    ensures value { result ≡ seconds_before s.now }
    ensures upper_bound { result < 10000000 }
{
    two_at(s, 0) * 3600 + two_at(s, 3) * 60 + two_at(s, 6)
}

// How many seconds an offset names.
fn offset_seconds(s: &[u8]) -> u64
    requires { offset_form s.now ≡ true }
    ensures value { result ≡ offset_seconds s.now }
    ensures upper_bound { result ≤ 50400 }
{
    (two_at(s, 1) * 60 + two_at(s, 4)) * 60
}

// The seconds of a time as it is written.
fn as_written(t: &[u8]) -> u64
    requires { (length t.now ≡ 25) × (stamp_form t.now ≡ true) }
    ensures value { result ≡ as_written t.now }
    ensures lower_bound { (50400 ≤ result) × (result < 20000000000000) }
{
    days_before(&t[..10]) * 86400 + seconds_before(&t[11..19]) + 50400
}

// The instant of a time with its offset.
fn instant_of(t: &[u8]) -> u64
    requires { (length t.now ≡ 25) × (stamp_form t.now ≡ true) }
    ensures { result ≡ instant t.now }
{
    let w = as_written(t);
    let o = offset_seconds(&t[19..]);
    if t[19] == b'+' {
        return w - o;
    }
    w + o
}

// Whether a time has an offset and no fraction: of 25 bytes there is no other.
fn is_stamp(t: &[u8]) -> bool
    requires { length t.now ≡ 25 }
    ensures { result ≡ stamp_form t.now }
{
    calendar::time(t).is_ok()
}

// Whether the four that name a bulk are of their kinds: a service, a BIC of the wider form, a date and a MsgId.
fn has_names(r: &[u8]) -> bool
    requires { length r.now ≡ 64 }
    ensures { result ≡ names_form r.now }
{
    codes::code(Element::LclInstrm, value(&r[26..30])).is_ok()
        && accounts::bicfi(value(&r[30..41])).is_ok()
        && calendar::date(&r[41..51]).is_ok()
        && words::reference(value(&r[51..63])).is_ok()
}

// Which side c names, if it is one of `E W`.
fn side_of(c: u8) -> Option<Side>
    ensures named { is_some result ≡ among "E W" c }
    ensures side { IfSome result (λ s. enters s ≡ eqb c (byte "E")) }
{
    match c {
        b'E' => Some(Side::Entry),
        b'W' => Some(Side::Withdrawal),
        _ => None,
    }
}

// Whether these bytes are a record.
fn is_record(r: &[u8]) -> bool
    ensures { result ≡ record_form r.now }
{
    r.len() == LENGTH
        && is_stamp(&r[..25])
        && side_of(r[25]).is_some()
        && has_names(r)
        && r[63] == b'\n'
}

// The key that a record names.
fn key_in(r: &[u8]) -> [u8; naming::LENGTH]
    requires { length r.now ≡ 64 }
    ensures { result ≡ key_in r.now }
{
    let service = value(&r[26..30]);
    let bic = value(&r[30..41]);
    let id = value(&r[51..63]);
    naming::key_with(service, id, bic, &r[41..51])
}

// What a record says; nothing of bytes that are none.
pub fn read_line(r: &[u8]) -> Option<Line>
    ensures { line_as result ≡ line_of r.now }
{
    if !is_record(r) {
        return None;
    }
    Some(Line {
        side: side_of(r[25])?,
        key: key_in(r),
        instant: instant_of(&r[..25]),
    })
}
