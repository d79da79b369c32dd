// Names and remittance texts.
ghost use Rattle.std.specs.Prelude.{◌≡◌, true, ℕ, ◌+◌, ◌<◌, ◌≤◌, length, IfSome};
ghost use Rattle.text.specs.Classes.{text_set};
ghost use Rattle.swift_values.specs.Lanes.{text_one, Run};
ghost use Rattle.swift_values.specs.Stands.{Stands};

use crate::classes::{in_name, in_text};
use crate::runs::passing;
use crate::{ended, ends_like, plain, room};
use profile::Simple;

// How many bytes of 64, from the first on, are of the text set: most texts end in the first half.
fn text_run(m: &[u8], at: usize) -> usize
    requires { at + 65 ≤ length m.now }
    ensures { (result ≤ 64) × Run text_one m.now at result }
{
    let n = passing(m, at, |b, _| in_text(b));
    if n < 32 {
        return n;
    }
    32 + passing(m, at + 32, |b, _| in_text(b))
}

// A name of n bytes of the text set stands at a place, and `<` behind it: where it ends.
#[inline(always)]
fn name_of(m: &[u8], at: usize, n: usize) -> Option<usize>
    requires { (0 < at) × (at + n < length m.now) × (n ≤ 70) × Run text_one m.now at n }
    ensures { IfSome result (Stands Simple.Text70 m.now at) }
{
    if ended(m, at, n) & (m[at] != b' ') {
        return Some(at + n);
    }
    None
}

// A name of up to 63 bytes stands at a place, and `<` behind it: where it ends.
fn quick_name(m: &[u8], at: usize) -> Option<usize>
    ensures { IfSome result (Stands Simple.Text70 m.now at) }
{
    if !room(m, at, 65) {
        return None;
    }
    name_of(m, at, text_run(m, at))
}

// A name of up to 32 such bytes stands at a place, and `<` behind it: where it ends.
fn usual_name(m: &[u8], at: usize) -> Option<usize>
    ensures { IfSome result (Stands Simple.Text70 m.now at) }
{
    if !room(m, at, 33) {
        return None;
    }
    name_of(m, at, passing(m, at, |b, _| in_name(b)))
}

// A name stands at a place, and `<` behind it: where it ends.
pub fn name(m: &[u8], at: usize) -> Option<usize>
    ensures { IfSome result (Stands Simple.Text70 m.now at) }
{
    usual_name(m, at)
        .or_else(|| quick_name(m, at))
        .or_else(|| plain(Simple::Text70, m, at))
}

// How many bytes of 160, from the first on, are of the text set, of which the first 32 pass a test of their own. (By two and two: a loop over the four is slower by half.)
fn long_run<F: Fn(u8, u8) -> bool>(m: &[u8], at: usize, first: F) -> usize
    requires room { at + 161 ≤ length m.now }
    requires calls { F.IsAlwaysCallable first }
    requires text { (b : ℕ) → (c : ℕ) → F.post first b c true → text_set b ≡ true }
    ensures { (result ≤ 160) × Run text_one m.now at result }
{
    let n = passing(m, at, first);
    if n < 32 {
        return n;
    }
    let k = text_run(m, at + 32);
    if k < 64 {
        return 32 + k;
    }
    96 + text_run(m, at + 96)
}

// A remittance text with no blank but spaces stands at a place, and `<` behind it: where it ends. Its first 32 bytes pass a test of their own; it may be as long as like.
fn quick_remittance<F: Fn(u8, u8) -> bool>(
    m: &[u8],
    at: usize,
    like: usize,
    first: F,
) -> Option<usize>
    requires calls { F.IsAlwaysCallable first }
    requires text { (b : ℕ) → (c : ℕ) → F.post first b c true → text_set b ≡ true }
    ensures { IfSome result (Stands Simple.Text140 m.now at) }
{
    if !room(m, at, 161) || (m[at] == b' ') {
        return None;
    }
    let n = long_run(m, at, first);
    if 140 < n {
        return None;
    }
    if ends_like(m, at, n, like) {
        return Some(at + like);
    }
    if ended(m, at, n) {
        return Some(at + n);
    }
    None
}

// A remittance text stands at a place, and `<` behind it: where it ends. It may be as long as like. Most begin as most names do.
pub fn remittance(m: &[u8], at: usize, like: usize) -> Option<usize>
    ensures { IfSome result (Stands Simple.Text140 m.now at) }
{
    quick_remittance(m, at, like, |b, _| in_name(b))
        .or_else(|| quick_remittance(m, at, 0, |b, _| in_text(b)))
        .or_else(|| plain(Simple::Text140, m, at))
}
