// BICs, in either form.
ghost use Rattle.std.specs.Prelude.{◌≡◌, true, false, ◌⊎◌, ◌+◌, ◌≤◌, length, IfSome};
ghost use Rattle.swift_values.specs.Blocks.{AllAt};
ghost use Rattle.swift_values.specs.Bics.{lowest as lowest_of, in_bic, bic_kind};
ghost use Rattle.swift_values.specs.Stands.{Stands};

use crate::classes::in_cap;
use crate::eights::{caps, eight};
use crate::{plain, room};
use profile::Simple;

// The lowest capital or digit that may stand at a place of a BIC, in its wider form or the other.
fn lowest(wider: bool, i: usize) -> u8
    ensures { result ≡ lowest_of wider i }
{
    match i {
        4 | 5 => b'A',
        ..=3 if !wider => b'A',
        6 if !wider => b'2',
        _ => b'0',
    }
}

// One that may stand there.
fn in_bic(wider: bool, i: usize, c: u8) -> bool
    ensures { result ≡ in_bic wider i c }
{
    in_cap(c) & (lowest(wider, i) <= c)
}

// The eighth is no O, but in the wider form.
fn eighth(wider: bool, c: u8) -> bool
    ensures { result ≡ true → wider ≡ false → c ≡ 79 → ⊥ }
{
    wider | (c != b'O')
}

// The first eight of a BIC stand at a place.
fn bic_head(wider: bool, m: &[u8], p: usize) -> bool
    requires { p + 8 ≤ length m.now }
    ensures { result ≡ true → AllAt (in_bic wider) m.now p 8 }
{
    eight(m, p, |i, c| in_bic(wider, i, c))
}

// How long a BIC is, by the byte behind its eleventh.
fn bic_length(c: u8) -> usize
    ensures { (result ≡ 8) ⊎ (result ≡ 11) }
{
    if c == b'<' { 11 } else { 8 }
}

// A BIC stands at a place, in its wider form or the other, and `<` behind it: where it ends.
fn quick_bic(wider: bool, m: &[u8], at: usize) -> Option<usize>
    ensures { IfSome result (Stands (bic_kind wider) m.now at) }
{
    if !room(m, at, 12) {
        return None;
    }
    let n = bic_length(m[at + 11]);
    if bic_head(wider, m, at)
        & caps(m, at + n - 8)
        & eighth(wider, m[at + 7])
        & (m[at + n] == b'<')
    {
        return Some(at + n);
    }
    None
}

// A BIC stands at a place, and `<` behind it: where it ends.
pub fn bic(m: &[u8], at: usize) -> Option<usize>
    ensures { IfSome result (Stands Simple.Bic m.now at) }
{
    quick_bic(false, m, at).or_else(|| plain(Simple::Bic, m, at))
}

// A BIC in its wider form stands at a place, and `<` behind it: where it ends.
pub fn bicfi(m: &[u8], at: usize) -> Option<usize>
    ensures { IfSome result (Stands Simple.Bicfi m.now at) }
{
    quick_bic(true, m, at).or_else(|| plain(Simple::Bicfi, m, at))
}
