// The code lists, by the element that takes them. Codes are exact bytes.
#![tactic(auto)]

ghost use Rattle.std.specs.Prelude.{◌≡◌, map};
ghost use Rattle.text.specs.Quoted.{bytes};
ghost use Rattle.answers.specs.Given.{given_worth};
ghost use Rattle.codes.specs.Listed.{codes_of, code_given};

use answers::Refusal;

#[derive(Clone, Copy)]
pub enum Element {
    SttlmMtd,
    SvcLvl,
    LclInstrm,
    SeqTp,
    ChrgBr,
    Prtry,
}

// The element's codes, in their order.
fn codes_of(e: Element) -> &'static [&'static [u8]]
    ensures { map (λ t. t.now) result.now ≡ map bytes (codes_of e) }
{
    match e {
        Element::SttlmMtd => &[b"CLRG"],
        Element::SvcLvl | Element::Prtry => &[b"SEPA"],
        Element::LclInstrm => &[b"CORE", b"B2B"],
        Element::SeqTp => &[b"FRST", b"RCUR", b"FNAL", b"OOFF"],
        Element::ChrgBr => &[b"SLEV"],
    }
}

// The code's place in its element's list, or 10.
pub fn code(e: Element, s: &[u8]) -> Result<u64, Refusal>
    ensures { given_worth result ≡ code_given e s.now }
{
    let i = codes_of(e)
        .iter()
        .position(|t| *t == s)
        .ok_or(Refusal::Unlisted)?;
    Ok(i as u64)
}
