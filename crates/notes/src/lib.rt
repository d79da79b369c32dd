// What the code notes while a message is read: the state, and what a value of each kind adds to it.
#![tactic(auto)]

ghost use Rattle.std.specs.Prelude.{◌≡◌, ◌<◌, Some};
ghost use Rattle.profile.specs.Limits.{most_items};
ghost use Rattle.answers.specs.Refusals.{refusal_number};
ghost use Rattle.notes.specs.Notes.{fresh, with_item, with_number, with_total, with_type, with_cents, with_sum, with_service, with_start};
ghost use Rattle.notes.specs.Notes.{may_follow, service_kept, coded, kept, value_noted, item_noted, type_refusal, type_noted};
ghost use Rattle.notes.specs.Steps.{stated, stepped, staying};

use answers::{Refusal, Refused};
use codes::Element;
use profile::{Field, Kind};

#[derive(Clone, Copy)]
pub struct Notes {
    // How many items have begun, where the first begins, and the sum of their cents.
    pub count: u64,
    pub first: u32,
    pub sum: u64,
    // The cents of the last item.
    pub cents: u64,
    // What the header says: NbOfTxs and where its value begins, the total and where its value begins.
    // (No struct of a number and its place: the definitions `with_number` and `with_total` name these four.)
    pub number: u64,
    pub numberat: u32,
    pub total: u64,
    pub totalat: u32,
    // What is said of the payment type first, of the header: whether it is there.
    pub typed: Option<bool>,
    // The items' LclInstrm: its place in its list.
    pub service: Option<u64>,
    // Where the last value of each field begins, 0 where there is none.
    // (Numbers and no Options: the definition `own_or` goes on by 0. An array and no struct: the definitions name the list `starts`.)
    pub starts: [u32; profile::FIELDS],
}

#[derive(Clone, Copy)]
pub struct State {
    // The next place: 32 bits are enough for a message.
    pub at: u32,
    pub notes: Notes,
}

impl State {
    // A place, before anything is read.
    pub fn new(at: u32) -> State
        ensures { stated result ≡ record { at = at; notes = fresh } }
    {
        State {
            at,
            notes: Notes {
                count: 0,
                first: 0,
                sum: 0,
                cents: 0,
                number: 0,
                numberat: 0,
                total: 0,
                totalat: 0,
                typed: None,
                service: None,
                starts: [0; profile::FIELDS],
            },
        }
    }

    // The same notes, at another place.
    pub fn at_place(mut self, p: u32) -> State
        ensures { stated result ≡ record { at = p; notes = self.notes } }
    {
        self.at = p;
        self
    }

    // An item begins at the state's place: one more, or 12.
    pub fn begin_item(self) -> Result<State, Refused>
        ensures { stepped result ≡ staying self.at (item_noted self.at self.notes) }
    {
        if self.notes.count < profile::MOST_ITEMS {
            return Ok(self.with_item());
        }
        Err(Refusal::TooManyItems.at(self.at as usize))
    }

    // One item more; where the first one begins.
    fn with_item(mut self) -> State
        requires { self.notes.count < most_items }
        ensures { stated result ≡ record { at = self.at; notes = with_item self.at self.notes } }
    {
        if self.notes.count == 0 {
            self.notes.first = self.at;
        }
        self.notes.count += 1;
        self
    }

    // What the header says of the count, at the state's place. (One function with `with_total` would have to be told which two fields it writes, and be longer than both.)
    fn with_number(mut self, n: u64) -> State
        ensures { stated result ≡ record { at = self.at; notes = with_number n self.at self.notes } }
    {
        self.notes.number = n;
        self.notes.numberat = self.at;
        self
    }

    // What the header says of the total, at the state's place.
    fn with_total(mut self, cents: u64) -> State
        ensures { stated result ≡ record { at = self.at; notes = with_total cents self.at self.notes } }
    {
        self.notes.total = cents;
        self.notes.totalat = self.at;
        self
    }

    // An item's cents.
    fn with_cents(mut self, cents: u64) -> State
        ensures { stated result ≡ record { at = self.at; notes = with_cents cents self.notes } }
    {
        self.notes.cents = cents;
        self
    }

    // The running sum.
    pub fn with_sum(mut self, sum: u64) -> State
        ensures { stated result ≡ record { at = self.at; notes = with_sum sum self.notes } }
    {
        self.notes.sum = sum;
        self
    }

    // What is said of the payment type first.
    fn with_type(mut self, there: bool) -> State
        ensures { stated result ≡ record { at = self.at; notes = with_type (Some there) self.notes } }
    {
        self.notes.typed = Some(there);
        self
    }

    // Whether the payment type is there, at the state's place: what is said first is kept, and refused where it is said again.
    pub fn say_type(self, there: bool) -> Result<State, Refused>
        ensures { stepped result ≡ staying self.at (type_noted there self.at self.notes) }
    {
        match self.notes.typed {
            None => Ok(self.with_type(there)),
            Some(first) => {
                if first == there {
                    Err(type_refusal(there).at(self.at as usize))
                } else {
                    Ok(self)
                }
            }
        }
    }

    // The items' service.
    fn with_service(mut self, i: u64) -> State
        ensures { stated result ≡ record { at = self.at; notes = with_service i self.notes } }
    {
        self.notes.service = Some(i);
        self
    }

    // Where the last value of a field begins.
    fn with_start(mut self, f: Field, p: u32) -> State
        ensures { stated result ≡ record { at = self.at; notes = with_start f p self.notes } }
    {
        self.notes.starts[profile::number_of(f)] = p;
        self
    }
}

// Why it is refused: it is there once more, or absent once more.
fn type_refusal(there: bool) -> Refusal
    ensures { refusal_number result ≡ type_refusal there }
{
    if there {
        Refusal::TypeTwice
    } else {
        Refusal::OtherTag
    }
}

// Whether an item's LclInstrm may stand where another stood first, or none.
pub fn may_follow(first: Option<u64>, listed: u64) -> bool
    ensures { result ≡ may_follow first listed }
{
    first.unwrap_or(listed) == listed
}

// The first item's LclInstrm, or the same again; else 11.
fn keep_service(i: u64, st: State) -> Result<State, Refused>
    ensures { stepped result ≡ staying st.at (service_kept i st.at st.notes) }
{
    if may_follow(st.notes.service, i) {
        Ok(st.with_service(i))
    } else {
        Err(Refusal::OtherInstrument.at(st.at as usize))
    }
}

// What a listed code adds.
fn keep_code(e: Element, i: u64, st: State) -> Result<State, Refused>
    ensures { stepped result ≡ staying st.at (coded e i st.at st.notes) }
{
    match e {
        Element::LclInstrm => keep_service(i, st),
        _ => Ok(st),
    }
}

// What a value adds that passed its kind's checker with this worth.
fn keep(k: Kind, worth: u64, st: State) -> Result<State, Refused>
    ensures { stepped result ≡ staying st.at (kept k worth st.at st.notes) }
{
    match k {
        Kind::Plain(_) => Ok(st),
        Kind::Count => Ok(st.with_number(worth)),
        Kind::Total => Ok(st.with_total(worth)),
        Kind::Amount => Ok(st.with_cents(worth)),
        Kind::Code(e) => keep_code(e, worth, st),
    }
}

// A value of a kind and a field, which begins at the state's place: judged, and noted but for the running sum.
pub fn note(k: Kind, f: Field, v: &[u8], st: State) -> Result<State, Refused>
    ensures { stepped result ≡ staying st.at (value_noted k f v.now st.at st.notes) }
{
    let worth = kinds::judge_value(k, v)
        .map_err(|why| why.at(st.at as usize))?
        .unwrap_or(0);
    let kept = keep(k, worth, st)?;
    Ok(kept.with_start(f, st.at))
}
