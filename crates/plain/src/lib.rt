// The plain form of an accepted message, written into a lent area. After the verdict the message is gone through from tag to tag, once for the length and once for the
// writing: each tag is copied, what stands behind it is written as it is meant where it is a value, and left out where it is white space.
#![tactic(auto)]

ghost use Rattle.std.specs.Prelude.{◌≡◌, ◌∷◌, ◌++◌, ◌^◌, ◌<◌, ◌≤◌, length, drop};
ghost use Rattle.text.specs.Quoted.{byte};
ghost use Rattle.tags.specs.Tags.{declaration};
ghost use Rattle.profile.specs.Limits.{most_bytes};
ghost use Rattle.money.specs.Amount.{as_two_digits};
ghost use Rattle.money.specs.Plain.{plain_amount};
ghost use Rattle.twice.specs.Twice.{cleared};
ghost use Rattle.plain.specs.Engine.{tag_of, closes, quoted, spelled, spelling_by, piece_of, next_of, pieces, declared_length, body_of};
ghost use Rattle.plain.specs.Answer.{answered};
ghost use Rattle.plain.specs.Indexed.{WroteWith};

use answers::{Refusal, Refused};
use text::Class;

// How what stands behind a tag is written: not at all, as it was read, collapsed, without needless zeros, with two decimals.
#[derive(Clone, Copy)]
pub enum Spelling {
    Nothing,
    AsRead,
    Collapsed,
    Number,
    Amount,
}

// A tag; what stands behind it, and how that is written; and the text from the next tag on.
#[derive(Clone, Copy)]
pub struct Piece<'a> {
    pub tag: &'a [u8],
    pub value: &'a [u8],
    pub spelling: Spelling,
    pub next: &'a [u8],
}

// How many bytes the tag at the beginning of s has: up to its `>`. (A `map_or` would be no plainer: its closure needs a `requires` for the sum.)
fn tag_length(s: &[u8]) -> usize
    ensures { result ≡ length (tag_of s.now) }
{
    match s.iter().position(|c| *c == b'>') {
        Some(i) => i + 1,
        None => s.len(),
    }
}

// Whether s begins with an end tag.
fn is_end(s: &[u8]) -> bool
    ensures { result ≡ closes s.now }
{
    s.starts_with(b"</")
}

// Whether a start tag ends in a quotation mark, as an amount's does.
fn is_quoted(tag: &[u8]) -> bool
    ensures { result ≡ quoted tag.now }
{
    tag.ends_with(b"\">")
}

// How what stands between a tag and the next one is written: a value stands between a start tag and an end tag.
fn spelling_by(tag: &[u8], next: &[u8]) -> Spelling
    ensures { result ≡ spelling_by tag.now next.now }
{
    if is_end(tag) || !is_end(next) {
        Spelling::Nothing
    } else if profile::is_count(tag) {
        Spelling::Number
    } else if is_quoted(tag) {
        Spelling::Amount
    } else if profile::is_words(tag) {
        Spelling::Collapsed
    } else {
        Spelling::AsRead
    }
}

// The piece at the beginning of s.
fn piece_of(s: &[u8]) -> Piece<'_>
    ensures text { result.tag.now ++ spelled result.spelling result.value.now ≡ piece_of s.now }
    ensures next { result.next.now ≡ next_of s.now }
{
    let (tag, behind) = s.split_at(tag_length(s));
    let (value, next) = behind.split_at(tags::upto(behind));
    Piece {
        tag,
        value,
        spelling: spelling_by(tag, next),
        next,
    }
}

// An amount's first digits without needless zeros, and what stands behind them: a pair, as `split_at` gives.
fn parts_of(v: &[u8]) -> (&[u8], &[u8])
    ensures { plain_amount v.now ≡ result.0.now ++ (byte "." ∷ as_two_digits (drop 1 result.1.now)) }
{
    let (whole, behind) = v.split_at(text::run_in(Class::Digit, v));
    (&whole[money::needless(whole)..], behind)
}

// How many bytes an amount has in its plain spelling.
fn amount_length(v: &[u8]) -> usize
    ensures { result ≡ length (plain_amount v.now) }
{
    let (digits, _) = parts_of(v);
    digits.len() + 3
}

// How many bytes a value has as it is spelled.
fn spelled_length(k: Spelling, v: &[u8]) -> usize
    ensures { result ≡ length (spelled k v.now) }
{
    match k {
        Spelling::Nothing => 0,
        Spelling::AsRead => v.len(),
        Spelling::Collapsed => words::collapsed_length(v),
        Spelling::Number => v.len() - money::needless(v),
        Spelling::Amount => amount_length(v),
    }
}

// How many bytes a piece has in the plain form.
fn piece_length(p: Piece) -> usize
    requires { length (p.tag.now ++ spelled p.spelling p.value.now) < 2 ^ 63 }
    ensures { result ≡ length (p.entry.tag.now ++ spelled p.entry.spelling p.entry.value.now) }
{
    p.tag.len() + spelled_length(p.spelling, p.value)
}

// The point and two decimals, from what stands behind an amount's first digits: a zero where there is no digit.
fn decimals(behind: &[u8]) -> [u8; 3]
    ensures { result ≡ byte "." ∷ as_two_digits (drop 1 behind.now) }
{
    [
        b'.',
        *behind.get(1).unwrap_or(&b'0'),
        *behind.get(2).unwrap_or(&b'0'),
    ]
}

// An amount in its plain spelling: its first digits without needless zeros, the point, two decimals.
fn spell_amount(v: &[u8], to: &mut [u8])
    requires { length to.old ≡ length (plain_amount v.now) }
    ensures { to.new ≡ plain_amount v.now }
{
    let (digits, behind) = parts_of(v);
    let (first, last) = to.split_at_mut(digits.len());
    text::lay(first, digits);
    last.copy_from_slice(&decimals(behind));
}

// A value, as it is spelled.
fn spell(k: Spelling, v: &[u8], to: &mut [u8])
    requires { length to.old ≡ length (spelled k v.now) }
    ensures { to.new ≡ spelled k v.now }
{
    match k {
        Spelling::Nothing => {}
        Spelling::AsRead => text::lay(to, v),
        Spelling::Collapsed => words::collapse(v, to),
        Spelling::Number => text::lay(to, &v[money::needless(v)..]),
        Spelling::Amount => spell_amount(v, to),
    }
}

// A piece, written into its part of the area.
fn lay(p: Piece, part: &mut [u8])
    requires { length part.old ≡ length (p.tag.now ++ spelled p.spelling p.value.now) }
    ensures { part.new ≡ p.entry.tag.now ++ spelled p.entry.spelling p.entry.value.now }
{
    let (tag, behind) = part.split_at_mut(p.tag.len());
    text::lay(tag, p.tag);
    spell(p.spelling, p.value, behind);
}

// How many bytes all pieces of s have in the plain form.
// (By what is left of s: for a `for`, an iterator of pieces would be a type with contracts of its own, and longer than both loops.)
fn measure(s: &[u8]) -> usize
    requires { length (pieces s.now) ≤ most_bytes }
    ensures { result ≡ length (pieces s.now) }
{
    let mut rest = s;
    let mut n = 0;
    while !rest.is_empty() {
        let p = piece_of(rest);
        n += piece_length(p);
        rest = p.next;
    }
    n
}

// All pieces of s, each written into its part of the area, behind the one before it.
// (Likewise; n is no number of turns, but where a piece's part begins, which depends on the length of each piece before.)
fn fill(s: &[u8], area: &mut [u8])
    requires { length (pieces s.now) ≤ length area.old }
    ensures { area.new ≡ pieces s.now ++ drop (length (pieces s.now)) area.old }
{
    let mut rest = s;
    let mut n = 0;
    while !rest.is_empty() {
        let p = piece_of(rest);
        let to = n + piece_length(p);
        lay(p, &mut area[n..to]);
        n = to;
        rest = p.next;
    }
}

// How many bytes the declaration takes, where there is one.
fn declared(m: &[u8]) -> usize
    ensures { result ≡ declared_length m.now }
{
    if tags::has_question(m) {
        tags::DECLARATION
    } else {
        0
    }
}

// The message from its first tag on, without the declaration.
fn body_of(m: &[u8]) -> &[u8]
    ensures { result.now ≡ body_of m.now }
{
    let s = &m[declared(m).min(m.len())..];
    &s[tags::upto(s)..]
}

// The declaration and all pieces of s, written into the area.
fn put(s: &[u8], area: &mut [u8])
    requires { length (declaration ++ pieces s.now) ≤ length area.old }
    ensures { area.new ≡ (declaration ++ pieces s.now) ++ drop (length (declaration ++ pieces s.now)) area.old }
{
    let (first, behind) = area.split_at_mut(tags::DECLARATION);
    first.copy_from_slice(&tags::declaration());
    fill(s, behind);
}

// The plain form of a message: how many bytes of it were written; the judge's refusal; or 17, where the area is too short. The index is cleared.
pub fn write(m: &[u8], area: &mut [u8], index: &mut [u32]) -> Result<usize, Refused>
    ensures { WroteWith index.old m.now area.old (record { answer = answered result; area = area.new }) × (index.new ≡ cleared index.old) }
{
    judge::judge(m, index)?;
    let s = body_of(m);
    let n = tags::DECLARATION + measure(s);
    if area.len() < n {
        return Err(Refusal::ShortArea.at(0));
    }
    put(s, area);
    Ok(n)
}
