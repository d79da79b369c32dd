// Amounts of items.
ghost use Rattle.std.specs.Prelude.{◌≡◌, true, ◌+◌, ◌<◌, ◌≤◌, length, IfSome};
ghost use Rattle.answers.specs.Given.{worth};
ghost use Rattle.money.specs.Amount.{most};
ghost use Rattle.swift_values.specs.Amounts.{Written, Cents};
ghost use Rattle.swift_values.specs.Stands.{StandsFor};

use crate::classes::in_digit;
use crate::eights::{digit_pair, pair_at};
use crate::{Worth, weighed};
use money::Range;
use profile::Kind;

// How many digits stand at a place, and the number that they write.
#[derive(Clone, Copy)]
struct Figures {
    many: usize,
    number: u64,
}

// Up to nine digits that stand at a place.
// (By the place: it is what is told, how many digits stand before it.)
fn leading(m: &[u8], at: usize) -> Figures
    requires { at + 9 ≤ length m.now }
    ensures { (result.many ≤ 9) × (result.number ≤ 999999999) × Written m.now at result.many result.number }
{
    let mut n: u64 = 0;
    for i in 0..9 {
        let c = m[at + i];
        if !in_digit(c) {
            return Figures { many: i, number: n };
        }
        n = n * 10 + (u64::from(c) - 48);
    }
    Figures { many: 9, number: n }
}

// A point, two digits and `<` stand at a place.
fn in_cents(m: &[u8], q: usize) -> bool
    requires { q + 4 ≤ length m.now }
    ensures { result ≡ true → Cents m.now q }
{
    (m[q] == b'.') & digit_pair(m, q + 1) & (m[q + 3] == b'<')
}

// An item's amount of up to nine digits, or with a point and two digits behind them, stands at a place, and `<` behind it: where it ends and its cents.
fn quick_amount(m: &[u8], at: usize) -> Option<Worth>
    ensures { IfSome result (λ r. (r.worth ≤ most Range.Item) × StandsFor Kind.Amount (worth r.worth) m.now at r.at) }
{
    // `room` is asked for in place: by a call this is slower by a third
    if at == 0 || m.len() < 13 || m.len() - 13 < at {
        return None;
    }
    let d = leading(m, at);
    let k = d.many;
    let n = d.number;
    let q = at + k;
    if k == 0 {
        return None;
    }
    if in_cents(m, q) {
        return with_cents(m, at, k, n);
    }
    if (m[q] == b'<') & (n >= 1) {
        return Some(Worth {
            at: q,
            worth: n * 100,
        });
    }
    None
}

// The same of an amount with cents, whose k digits write n.
fn with_cents(m: &[u8], at: usize, k: usize, n: u64) -> Option<Worth>
    requires { (0 < at) × (0 < k) × (k ≤ 9) × (n ≤ 999999999) × (at + k + 4 ≤ length m.now) × Written m.now at k n × Cents m.now (at + k) }
    ensures { IfSome result (λ r. (r.worth ≤ most Range.Item) × StandsFor Kind.Amount (worth r.worth) m.now at r.at) }
{
    let c = n * 100 + pair_at(m, at + k + 1);
    if c == 528 {
        return None;
    }
    Some(Worth {
        at: at + k + 3,
        worth: c - 528,
    })
}

// An item's amount in any spelling stands at a place, and `<` behind it: where it ends and its cents.
fn plain_amount(m: &[u8], at: usize) -> Option<Worth>
    ensures { IfSome result (λ r. (r.worth ≤ most Range.Item) × StandsFor Kind.Amount (worth r.worth) m.now at r.at) }
{
    weighed(Kind::Amount, m, at)
}

// An item's amount stands at a place, and `<` behind it: where it ends and its cents.
pub fn amount(m: &[u8], at: usize) -> Option<Worth>
    ensures { IfSome result (λ r. (r.worth ≤ most Range.Item) × StandsFor Kind.Amount (worth r.worth) m.now at r.at) }
{
    quick_amount(m, at).or_else(|| plain_amount(m, at))
}
