// Why a value, a message or a call is refused, with this paper's number; a refusal and its place; a rule's test as a result.
#![tactic(auto)]

ghost use Rattle.std.specs.Prelude.{◌≡◌};
ghost use Rattle.answers.specs.Refusals.{refusal_number};
ghost use Rattle.answers.specs.Given.{required};

// Why something is refused, by this paper's number: 5 and 13 are not used.
#[derive(Clone, Copy, PartialEq, Eq)]
pub enum Refusal {
    // The message has over 16,777,216 bytes.
    TooLong = 1,
    // It starts `<?` but not with the declaration, or the root tag is wrong.
    Beginning = 2,
    // It ends where more is due.
    Cut = 3,
    // No tag that may come here.
    OtherTag = 4,
    // A currency that is not EUR.
    Currency = 6,
    // A value is not of its kind's form.
    Form = 7,
    // Check digits.
    CheckDigits = 8,
    // An amount is outside its range.
    Range = 9,
    // A code is not listed.
    Unlisted = 10,
    // LclInstrm differs from the first item's.
    OtherInstrument = 11,
    // Item 10,001 begins.
    TooManyItems = 12,
    // NbOfTxs is not the number of items.
    Count = 14,
    // The total is not the sum.
    Total = 15,
    // Bytes stand behind the end.
    Behind = 16,
    // The lent area is too short.
    ShortArea = 17,
    // There is no such item.
    NoItem = 18,
    // No length of an IBAN of its country.
    Length = 19,
    // The key is open already.
    KeyOpen = 20,
    // 64 bulks are open.
    BookFull = 21,
    // The key is not open.
    KeyNotOpen = 22,
    // The payment type stands in the header and in an item.
    TypeTwice = 23,
    // An earlier item has the same TxId.
    TxIdTwice = 24,
    // The lent index has under 16,384 numbers.
    ShortIndex = 25,
    // The bytes are no record of a recording.
    NoRecord = 26,
    // The time falls.
    TimeFalls = 27,
    // A message is missing, left over, or has another key.
    OtherMessage = 28,
    // The lent book is none.
    NoBook = 29,
}

// A refusal, and its place.
#[derive(Clone, Copy, PartialEq, Eq)]
pub struct Refused {
    pub why: Refusal,
    pub at: usize,
}

impl Refusal {
    // This paper's number.
    pub fn number(self) -> u8
        ensures { result ≡ refusal_number self }
    {
        self as u8
    }

    // The refusal at a place.
    pub fn at(self, place: usize) -> Refused
        ensures { result ≡ record { why = self; at = place } }
    {
        Refused {
            why: self,
            at: place,
        }
    }
}

// A rule's test as a result: where it fails, `?` ends with the refusal.
pub fn require(holds: bool, why: Refusal) -> Result<(), Refusal>
    ensures { result ≡ required holds why }
{
    if holds { Ok(()) } else { Err(why) }
}
