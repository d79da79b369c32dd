// References.
ghost use Rattle.std.specs.Prelude.{◌≡◌, ◌+◌, ◌≤◌, length, IfSome};
ghost use Rattle.swift_values.specs.Lanes.{ref_pair, Run};
ghost use Rattle.swift_values.specs.Stands.{Stands};

use crate::classes::{in_ref, in_usual};
use crate::runs::passing;
use crate::{ended, ends_like, plain, room};
use profile::Simple;

// A byte of a reference, with the byte behind it.
fn ref_pair(b: u8, c: u8) -> bool
    ensures { result ≡ ref_pair b c }
{
    in_ref(b) & !((b == 47) & ((c == 47) | (c == 60)))
}

// How many bytes of 35, as far as a reference goes, pass: the last three bytes one by one.
fn ref_run(m: &[u8], at: usize) -> usize
    requires { at + 36 ≤ length m.now }
    ensures { (result ≤ 35) × Run ref_pair m.now at result }
{
    let n = passing(m, at, ref_pair);
    if n < 32 {
        return n;
    }
    for i in 32..35 {
        if !ref_pair(m[at + i], m[at + i + 1]) {
            return i;
        }
    }
    35
}

// A reference stands at a place, and `<` behind it: where it ends.
fn quick_reference(m: &[u8], at: usize) -> Option<usize>
    ensures { IfSome result (Stands Simple.Reference m.now at) }
{
    if !room(m, at, 36) {
        return None;
    }
    let n = ref_run(m, at);
    if ended(m, at, n) & (m[at] != b'/') {
        return Some(at + n);
    }
    None
}

// A reference of up to 32 such bytes stands at a place, and `<` behind it: where it ends. It may be as long as like.
fn usual_reference(m: &[u8], at: usize, like: usize) -> Option<usize>
    ensures { IfSome result (Stands Simple.Reference m.now at) }
{
    if !room(m, at, 33) {
        return None;
    }
    let n = passing(m, at, |b, _| in_usual(b));
    if ends_like(m, at, n, like) {
        return Some(at + like);
    }
    if ended(m, at, n) {
        return Some(at + n);
    }
    None
}

// A reference stands at a place, and `<` behind it: where it ends, as far as it is seen at once. It may be as long as like.
fn seen_reference(m: &[u8], at: usize, like: usize) -> Option<usize>
    ensures { IfSome result (Stands Simple.Reference m.now at) }
{
    usual_reference(m, at, like).or_else(|| quick_reference(m, at))
}

// A reference stands at a place, and `<` behind it: where it ends. It may be as long as like, such as the one before.
pub fn reference(m: &[u8], at: usize, like: usize) -> Option<usize>
    ensures { IfSome result (Stands Simple.Reference m.now at) }
{
    seen_reference(m, at, like).or_else(|| plain(Simple::Reference, m, at))
}

// An EndToEndId stands at a place, and `<` behind it: where it ends. Every reference is one. It may be as long as like.
pub fn end_to_end(m: &[u8], at: usize, like: usize) -> Option<usize>
    ensures { IfSome result (Stands Simple.EndToEnd m.now at) }
{
    seen_reference(m, at, like).or_else(|| plain(Simple::EndToEnd, m, at))
}
