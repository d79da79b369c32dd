// References and texts: the values that people and programs write as words.
// An EndToEndId and a text are judged collapsed, where they lie: nothing is copied, and a usual value is passed over as quickly as a reference.
#![tactic(auto)]

ghost use Rattle.std.specs.Prelude.{◌≡◌, false, map, length};
ghost use Rattle.text.specs.Truth.{between, every, lead, first};
ghost use Rattle.text.specs.Classes.{text_set};
ghost use Rattle.answers.specs.Given.{given_yes};
ghost use Rattle.words.specs.Collapsed.{as_space, up_to_last, stripped, collapsed};
ghost use Rattle.words.specs.Reference.{two_slashes, slash_rule, reference_given};
ghost use Rattle.words.specs.EndToEnd.{end_to_end_given};
ghost use Rattle.words.specs.Text.{longest, text_given};
ghost use Rattle.words.specs.Walk.{blank, run, overwritten};

use answers::{Refusal, require};
use text::Class;

// Which text is asked about: a name, or the remittance information.
#[derive(Clone, Copy)]
pub enum Field {
    Nm,
    Ustrd,
}

// Whether `//` stands somewhere.
fn two_slashes(s: &[u8]) -> bool
    ensures { result ≡ two_slashes s.now }
{
    !s.is_empty() && s.iter().zip(&s[1..]).any(|(a, b)| *a == b'/' && *b == b'/')
}

// Whether the slash rule is kept.
fn slash_rule(s: &[u8]) -> bool
    ensures { result ≡ slash_rule s.now }
{
    !s.starts_with(b"/") && !s.ends_with(b"/") && !two_slashes(s)
}

// A reference: yes, or 7.
pub fn reference(s: &[u8]) -> Result<(), Refusal>
    ensures { given_yes result ≡ reference_given s.now }
{
    require(
        (1..=35).contains(&s.len()) && text::all_in(Class::Reference, s) && slash_rule(s),
        Refusal::Form,
    )
}

// Whether the byte is a blank, one that counts as space.
// (Not `tags::is_white`: request 4 names these bytes anew, and the wrong line `cr_not_counted` tries them here.)
fn is_blank(c: u8) -> bool
    ensures { result ≡ blank c }
{
    matches!(c, b' ' | b'\t' | b'\r' | b'\n')
}

// The byte, or the space that it counts as.
fn as_space(c: u8) -> u8
    ensures { result ≡ as_space c }
{
    if is_blank(c) { b' ' } else { c }
}

// How many blanks stand first.
fn blanks(s: &[u8]) -> usize
    ensures { result ≡ lead blank s.now }
{
    s.iter().take_while(|c| is_blank(**c)).count()
}

// How many bytes there are up to the last that is no blank.
fn reach(s: &[u8]) -> usize
    ensures { result ≡ length (up_to_last blank s.now) }
{
    s.len() - s.iter().rev().take_while(|c| is_blank(**c)).count()
}

// The value without the blanks at its ends.
fn strip(s: &[u8]) -> &[u8]
    ensures { result.now ≡ stripped blank s.now }
{
    let t = &s[blanks(s)..];
    &t[..reach(t)]
}

// How many of the first bytes become one.
fn run_of(s: &[u8]) -> usize
    ensures { result ≡ run s.now }
{
    blanks(s).max(1)
}

// How many bytes the collapsed value has. (A `while`: a turn passes over a whole run of blanks, and neither a `for` nor a chain steps by that.)
pub fn collapsed_length(s: &[u8]) -> usize
    ensures { result ≡ length (collapsed s.now) }
{
    let p = strip(s);
    let mut n = 0;
    let mut i = 0;
    while i < p.len() {
        i += run_of(&p[i..]);
        n += 1;
    }
    n
}

// Writes the collapsed value at the start of `to`, as far as there is room.
pub fn collapse(s: &[u8], to: &mut [u8])
    ensures { to.new ≡ overwritten (collapsed s.now) to.old }
{
    let p = strip(s);
    let mut i = 0;
    for n in 0..to.len() {
        if p.len() <= i {
            return;
        }
        to[n] = as_space(p[i]);
        i += run_of(&p[i..]);
    }
}

// Whether a value without blanks at its ends has 1 to `most` bytes collapsed. Where it has no more as it stands, nothing is counted.
fn fits(p: &[u8], most: usize) -> bool
    requires { blank (first p.now) ≡ false }
    ensures { result ≡ between 1 most (length (collapsed p.now)) }
{
    !p.is_empty() && (p.len() <= most || collapsed_length(p) <= most)
}

// Whether every byte, or the space that it counts as, is of the text set. The usual text is passed over by its class alone.
fn is_text(s: &[u8]) -> bool
    ensures { result ≡ every text_set (map as_space s.now) }
{
    let rest = &s[text::run_in(Class::Text, s)..];
    rest.iter().all(|c| text::is_in(Class::Text, as_space(*c)))
}

// An EndToEndId: yes, or 7.
pub fn end_to_end(s: &[u8]) -> Result<(), Refusal>
    ensures { given_yes result ≡ end_to_end_given s.now }
{
    let p = strip(s);
    require(is_text(p) && fits(p, 35) && slash_rule(p), Refusal::Form)
}

// How many characters a text of the field may have: the paper's two numbers. (Not one function with `money::most_of`, which only looks like it: another enum and other numbers.)
fn longest_of(f: Field) -> usize
    ensures { result ≡ longest f }
{
    match f {
        Field::Nm => 70,
        Field::Ustrd => 140,
    }
}

// A text of the field: yes, or 7.
pub fn text(f: Field, s: &[u8]) -> Result<(), Refusal>
    ensures { given_yes result ≡ text_given f s.now }
{
    let p = strip(s);
    require(fits(p, longest_of(f)) && is_text(p), Refusal::Form)
}
