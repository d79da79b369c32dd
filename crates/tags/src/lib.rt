// The fixed bytes of a message: white space, tags and the currency in them, the declaration, and how they lie at a place.
#![tactic(auto)]

ghost use Rattle.std.specs.Prelude.{◌≡◌, ◌+◌, ◌<◌, ◌≤◌, length, get_or, drop};
ghost use Rattle.text.specs.Truth.{lead};
ghost use Rattle.text.specs.Classes.{capital};
ghost use Rattle.tags.specs.Tags.{look, exactly, currency, white, starts_question, declaration as declared, currency_place, in_euro};
ghost use Rattle.tags.specs.Values.{in_value};

use text::Class;

// How fixed bytes lie at a place.
#[derive(Clone, Copy, PartialEq, Eq)]
pub enum Look {
    Whole,
    Cut,
    Other,
}

// Whether c is white space, without a branch: `matches!` makes one, and is slower.
pub fn is_white(c: u8) -> bool
    ensures { result ≡ white c }
{
    (c == 32) | (c == 9) | (c == 13) | (c == 10)
}

// How many bytes of white space stand first.
pub fn spaces(s: &[u8]) -> usize
    ensures { result ≡ lead white s.now }
{
    s.iter().position(|c| !is_white(*c)).unwrap_or(s.len())
}

// How many bytes are looked at at once. The compiler takes 48 by lanes of 16; 32 it takes one by one.
const BLOCK: usize = 48;

// Lane i: i where the byte is `<`, at least 48 where it is not.
fn key(b: u8, i: u8) -> u8
    requires { i < 48 }
    ensures { (b ≡ 60 → result ≡ i) × ((b ≡ 60 → ⊥) → 48 ≤ result) }
{
    if b == b'<' { i } else { 48 + i }
}

// How many bytes of a block stand before the first `<`. A chain of iterators is not taken by lanes, and is eight times slower.
fn of_block(block: &[u8; BLOCK]) -> usize
    ensures { result ≡ lead in_value block.now }
{
    let mut r: u8 = 48;
    for i in 0..BLOCK {
        r = r.min(key(block[i], i as u8));
    }
    r as usize
}

// How many bytes stand before the first `<`: all, where there is none. Most values end in the first block.
// (No `for` over `as_chunks`: it would divide by 48 before the first byte is looked at, and be no shorter.)
pub fn upto(s: &[u8]) -> usize
    ensures { result ≡ lead in_value s.now }
{
    let mut at = 0;
    let mut rest = s;
    while let Some((block, behind)) = rest.split_first_chunk::<BLOCK>() {
        let k = of_block(block);
        if k < BLOCK {
            return at + k;
        }
        at += BLOCK;
        rest = behind;
    }
    at + rest.iter().position(|c| *c == b'<').unwrap_or(rest.len())
}

// How the bytes of `text` lie at the beginning of s.
pub fn text_at(text: &[u8], s: &[u8]) -> Look
    ensures { result ≡ look (exactly text.now) s.now }
{
    if s.starts_with(text) {
        Look::Whole
    } else if text.starts_with(s) {
        Look::Cut
    } else {
        Look::Other
    }
}

// How many bytes a currency takes, with the end of its tag.
pub const CURRENCY: usize = 5;

// Whether c passes test i of a currency: three capitals, `"`, `>`.
fn passes(i: usize, c: u8) -> bool
    ensures { result ≡ get_or currency i capital c }
{
    match i {
        3 => c == b'"',
        4 => c == b'>',
        _ => text::is_in(Class::Capital, c),
    }
}

// How a currency and the end of an amount's tag lie at the beginning of s.
pub fn currency_at(s: &[u8]) -> Look
    ensures { result ≡ look currency s.now }
{
    for i in 0..CURRENCY {
        let Some(c) = s.get(i) else {
            return Look::Cut;
        };
        if !passes(i, *c) {
            return Look::Other;
        }
    }
    Look::Whole
}

// Whether s starts `<?`, so that a declaration is due.
pub fn has_question(s: &[u8]) -> bool
    ensures { result ≡ starts_question s.now }
{
    s.starts_with(b"<?")
}

// How many bytes the declaration has.
pub const DECLARATION: usize = 38;

// The declaration.
pub fn declaration() -> [u8; DECLARATION]
    ensures { result ≡ declared }
{
    *b"<?xml version=\"1.0\" encoding=\"UTF-8\"?>"
}

// How the declaration lies at the beginning of s.
pub fn declaration_at(s: &[u8]) -> Look
    ensures { result ≡ look (exactly declared) s.now }
{
    text_at(&declaration(), s)
}

// Where the currency of an amount's start tag stands that ends at a place.
pub fn currency_place(at: usize) -> usize
    ensures { result ≡ currency_place at }
{
    at.saturating_sub(CURRENCY)
}

// Whether the currency of an amount's start tag that ends at a place is EUR.
pub fn in_euro(m: &[u8], at: usize) -> bool
    ensures { result ≡ in_euro m.now at }
{
    let from = currency_place(at);
    from <= m.len() && m[from..].starts_with(b"EUR")
}
