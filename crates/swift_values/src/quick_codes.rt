// Codes of an element's list.
ghost use Rattle.std.specs.Prelude.{◌≡◌, true, ◌+◌, ◌<◌, ◌≤◌, length, IfSome};
ghost use Rattle.text.specs.Truth.{part, every};
ghost use Rattle.answers.specs.Given.{worth};
ghost use Rattle.codes.specs.Listed.{code_given};
ghost use Rattle.tags.specs.Values.{in_value};
ghost use Rattle.swift_values.specs.Stands.{StandsFor};

use crate::{Worth, room, weighed};
use codes::Element;
use profile::Kind;

// A code of an element's list stands at a place, and `<` behind it: where it ends and its place in the list.
fn plain_code(e: Element, m: &[u8], at: usize) -> Option<Worth>
    ensures { IfSome result (λ r. (r.worth ≤ 4) × StandsFor (Kind.Code e) (worth r.worth) m.now at r.at) }
{
    weighed(Kind::Code(e), m, at)
}

// Four bytes stand at a place.
// (Byte by byte and without a branch, for the time: `==` of slices stops at the first that differs, and straight was slower by it, docs/DESIGN-PASS.md.)
fn are(m: &[u8], p: usize, c: [u8; 4]) -> bool
    requires { p + 4 ≤ length m.now }
    ensures { result ≡ true → part p 4 m.now ≡ c }
{
    (m[p] == c[0]) & (m[p + 1] == c[1]) & (m[p + 2] == c[2]) & (m[p + 3] == c[3])
}

// A code of four characters, which is w-th in its list, stands at a place, and `<` behind it.
fn coded(e: Element, w: u64, m: &[u8], at: usize, c: [u8; 4]) -> Option<Worth>
    requires { (0 < at) × (at + 5 ≤ length m.now) × (w ≤ 4) × (every in_value c ≡ true) × (code_given e c ≡ worth w) }
    ensures { IfSome result (λ r. (r.worth ≤ 4) × StandsFor (Kind.Code e) (worth r.worth) m.now at r.at) }
{
    if are(m, at, c) & (m[at + 4] == b'<') {
        return Some(Worth {
            at: at + 4,
            worth: w,
        });
    }
    None
}

// A code of LclInstrm, likewise.
fn instrument(m: &[u8], at: usize) -> Option<Worth>
    requires { (0 < at) × (at + 5 ≤ length m.now) }
    ensures { IfSome result (λ r. (r.worth ≤ 4) × StandsFor (Kind.Code Element.LclInstrm) (worth r.worth) m.now at r.at) }
{
    if are(m, at, *b"B2B<") {
        return Some(Worth {
            at: at + 3,
            worth: 1,
        });
    }
    coded(Element::LclInstrm, 0, m, at, *b"CORE")
}

// A code of SeqTp, likewise.
fn sequence(m: &[u8], at: usize) -> Option<Worth>
    requires { (0 < at) × (at + 5 ≤ length m.now) }
    ensures { IfSome result (λ r. (r.worth ≤ 4) × StandsFor (Kind.Code Element.SeqTp) (worth r.worth) m.now at r.at) }
{
    match m[at] {
        b'R' => coded(Element::SeqTp, 1, m, at, *b"RCUR"),
        b'O' => coded(Element::SeqTp, 3, m, at, *b"OOFF"),
        b'F' if m[at + 1] == b'R' => coded(Element::SeqTp, 0, m, at, *b"FRST"),
        _ => coded(Element::SeqTp, 2, m, at, *b"FNAL"),
    }
}

// The same for any list.
fn quick_code(e: Element, m: &[u8], at: usize) -> Option<Worth>
    ensures { IfSome result (λ r. (r.worth ≤ 4) × StandsFor (Kind.Code e) (worth r.worth) m.now at r.at) }
{
    if !room(m, at, 5) {
        return None;
    }
    match e {
        Element::SttlmMtd => coded(Element::SttlmMtd, 0, m, at, *b"CLRG"),
        Element::SvcLvl => coded(Element::SvcLvl, 0, m, at, *b"SEPA"),
        Element::LclInstrm => instrument(m, at),
        Element::SeqTp => sequence(m, at),
        Element::ChrgBr => coded(Element::ChrgBr, 0, m, at, *b"SLEV"),
        Element::Prtry => coded(Element::Prtry, 0, m, at, *b"SEPA"),
    }
}

// A code of an element's list stands at a place, and `<` behind it: where it ends and its place in the list.
pub fn code(e: Element, m: &[u8], at: usize) -> Option<Worth>
    ensures { IfSome result (λ r. (r.worth ≤ 4) × StandsFor (Kind.Code e) (worth r.worth) m.now at r.at) }
{
    quick_code(e, m, at).or_else(|| plain_code(e, m, at))
}
