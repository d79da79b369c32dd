// The written profile: the element tree stands in specs/, with a name for every field and the kind of every value.
#![tactic(auto)]

ghost use Rattle.std.specs.Prelude.{◌≡◌};
ghost use Rattle.text.specs.Quoted.{alike};
ghost use Rattle.tags.specs.Tags.{look, exactly};
ghost use Rattle.profile.specs.Version.{root};
ghost use Rattle.profile.specs.Fields.{field_number};
ghost use Rattle.profile.specs.Kinds.{is_amount};
ghost use Rattle.profile.specs.Profile.{count_tag, words_tag};

use codes::Element;
use tags::Look;

// The versions of the message that are judged.
#[derive(Clone, Copy, PartialEq, Eq)]
pub enum Version {
    V02,
    V08,
}

// Limits 1 and 12.
pub const MOST_BYTES: usize = 16_777_216;

pub const MOST_ITEMS: u64 = 10_000;

// The kinds whose checker answers yes or a refusal.
#[derive(Clone, Copy, PartialEq, Eq)]
pub enum Simple {
    Reference,
    EndToEnd,
    Text70,
    Text140,
    Date,
    Time,
    Bic,
    Bicfi,
    Iban,
    Identifier,
}

#[derive(Clone, Copy)]
pub enum Kind {
    Plain(Simple),
    Count,
    Total,
    Amount,
    Code(Element),
}

// Every element that holds a value, in the order of the profile: the header's, then an item's.
#[derive(Clone, Copy, PartialEq, Eq)]
pub enum Field {
    MsgId,
    CreDtTm,
    NbOfTxs,
    TtlIntrBkSttlmAmt,
    IntrBkSttlmDt,
    SttlmMtd,
    InstgBic,
    InstrId,
    EndToEndId,
    TxId,
    SvcLvl,
    LclInstrm,
    SeqTp,
    IntrBkSttlmAmt,
    ChrgBr,
    ReqdColltnDt,
    MndtId,
    DtOfSgntr,
    CdtrId,
    Prtry,
    CdtrNm,
    CdtrIban,
    CdtrBic,
    DbtrNm,
    DbtrIban,
    DbtrBic,
    Ustrd,
}

// How many fields there are: the last one's number, and one.
pub const FIELDS: usize = Field::Ustrd as usize + 1;

// A field's number.
pub fn number_of(f: Field) -> usize
    ensures { result ≡ field_number f }
{
    f as usize
}

// Whether a value of this kind has a currency in its start tag.
pub fn is_amount(k: Kind) -> bool
    ensures { result ≡ is_amount k }
{
    matches!(k, Kind::Total | Kind::Amount)
}

// How many bytes the root tag has.
pub const ROOT: usize = 65;

// How a version's root tag lies at the beginning of s.
pub fn root_at(v: Version, s: &[u8]) -> Look
    ensures { result ≡ look (exactly (root v)) s.now }
{
    let text = match v {
        Version::V02 => b"<Document xmlns=\"urn:iso:std:iso:20022:tech:xsd:pacs.003.001.02\">",
        Version::V08 => b"<Document xmlns=\"urn:iso:std:iso:20022:tech:xsd:pacs.003.001.08\">",
    };
    tags::text_at(text, s)
}

// Whether a tag is the count's start tag.
pub fn is_count(tag: &[u8]) -> bool
    ensures { result ≡ alike count_tag tag.now }
{
    tag == b"<NbOfTxs>".as_slice()
}

// Whether a tag is the start tag of a value that is collapsed.
pub fn is_words(tag: &[u8]) -> bool
    ensures { result ≡ words_tag tag.now }
{
    // (By `same`: one `matches!` leaves a goal for each byte of the three tags, 27 and more, and they did not close alone.)
    text::same(b"<EndToEndId>", tag) || text::same(b"<Nm>", tag) || text::same(b"<Ustrd>", tag)
}
