// Values that are seen at once: a place behind the value where it is of its kind, and nothing where that is not told.
#![tactic(auto)]

ghost use Rattle.std.specs.Prelude.{◌≡◌, true, ◌+◌, ◌<◌, ◌≤◌, length, get_or, IfSome};
ghost use Rattle.answers.specs.Given.{worth};
ghost use Rattle.swift_values.specs.Stands.{Ends, StandsFor, Stands};

pub use crate::quick_amounts::amount;
pub use crate::quick_bics::{bic, bicfi};
pub use crate::quick_codes::code;
pub use crate::quick_dates::date;
pub use crate::quick_ibans::iban;
pub use crate::quick_identifiers::identifier;
pub use crate::quick_references::{end_to_end, reference};
pub use crate::quick_texts::{name, remittance};
use profile::{Kind, Simple};

mod classes;
mod eights;
mod quick_amounts;
mod quick_bics;
mod quick_codes;
mod quick_dates;
mod quick_ibans;
mod quick_identifiers;
mod quick_references;
mod quick_texts;
mod runs;

// The place behind a value, and what the value is worth.
#[derive(Clone, Copy)]
pub struct Worth {
    pub at: usize,
    pub worth: u64,
}

// Where the value that stands at a place ends: at the next `<`.
fn end_of(m: &[u8], at: usize) -> Option<usize>
    ensures { IfSome result (Ends m.now at) }
{
    if at == 0 || m.len() <= at {
        return None;
    }
    let e = at + tags::upto(&m[at..]);
    if e == m.len() { None } else { Some(e) }
}

// A value of a kind whose checker says yes stands at a place, and `<` behind it: where it ends.
pub fn plain(k: Simple, m: &[u8], at: usize) -> Option<usize>
    ensures { IfSome result (Stands k m.now at) }
{
    let e = end_of(m, at)?;
    match kinds::judge_value(Kind::Plain(k), &m[at..e]) {
        Ok(None) => Some(e),
        _ => None,
    }
}

// A value of a kind whose checker answers a number stands at a place, and `<` behind it: where it ends and its worth.
pub(crate) fn weighed(k: Kind, m: &[u8], at: usize) -> Option<Worth>
    ensures { IfSome result (λ r. StandsFor k (worth r.worth) m.now at r.at) }
{
    let e = end_of(m, at)?;
    match kinds::judge_value(k, &m[at..e]) {
        Ok(Some(n)) => Some(Worth { at: e, worth: n }),
        _ => None,
    }
}

// At a place behind the first byte stand n bytes at least.
// A message and a place are two arguments: of a struct each block that begins some bytes on would need another one, and no clause gets shorter.
pub(crate) fn room(m: &[u8], at: usize, n: usize) -> bool
    ensures { result ≡ true → (0 < at) × (at + n ≤ length m.now) }
{
    0 < at && n <= m.len() && at <= m.len() - n
}

// Where n bytes at a place behind the first byte end, if `<` is behind them.
pub(crate) fn end_behind(m: &[u8], at: usize, n: usize) -> Option<usize>
    ensures { IfSome result (λ r. (0 < at) × (r ≡ at + n) × (r < length m.now) × (get_or m.now r 0 ≡ 60)) }
{
    if 0 < at && n < m.len() && at < m.len() - n && m[at + n] == b'<' {
        return Some(at + n);
    }
    None
}

// A value's n bytes at a place are one at least, and all: `<` is behind them.
pub(crate) fn ended(m: &[u8], at: usize, n: usize) -> bool
    requires { at + n < length m.now }
    ensures { result ≡ true → (0 < n) × (get_or m.now (at + n) 0 ≡ 60) }
{
    (n != 0) & (m[at + n] == b'<')
}

// Of n bytes that a value may have, like are all. A length that is guessed right lets the reader go on before n is known.
pub(crate) fn ends_like(m: &[u8], at: usize, n: usize, like: usize) -> bool
    requires { at + n < length m.now }
    ensures { result ≡ true → (like ≤ n) × (0 < like) × (get_or m.now (at + like) 0 ≡ 60) }
{
    like <= n && ended(m, at, like)
}
