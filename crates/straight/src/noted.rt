// What an item adds to the notes.
ghost use Rattle.std.specs.Prelude.{◌≡◌, ◌+◌, ◌≤◌};
ghost use Rattle.profile.specs.Limits.{most_bytes};
ghost use Rattle.items.specs.Sums.{most_sum};
ghost use Rattle.notes.specs.Notes.{started, said_by};
ghost use Rattle.notes.specs.Steps.{stated};
ghost use Rattle.straight.specs.Legs.{stood, maybe_from, type_from, service_from, front_from, back_from, FrontWithin, BackWithin, item_noted};

use crate::pieces::{Back, Front, Item};
use notes::State;
use profile::Field;

// Where a field's value begins.
fn start(starts: &mut [u32; profile::FIELDS], f: Field, p: usize)
    requires { p ≤ most_bytes }
    ensures { starts.new ≡ started f p starts.old }
{
    starts[profile::number_of(f)] = p as u32;
}

// The same, where there is one.
fn maybe_start(starts: &mut [u32; profile::FIELDS], f: Field, p: usize)
    requires { p ≤ most_bytes }
    ensures { starts.new ≡ maybe_from f p starts.old }
{
    if p == 0 {
        return;
    }
    start(starts, f, p);
}

// Where the codes of the payment type begin, where it stands in the item.
fn start_type(starts: &mut [u32; profile::FIELDS], r: Front)
    requires { FrontWithin most_bytes r }
    ensures { starts.new ≡ type_from r.level r starts.old }
{
    if r.level == 0 {
        return;
    }
    start(starts, Field::SvcLvl, r.level);
    start(starts, Field::LclInstrm, r.service);
    start(starts, Field::SeqTp, r.sequence);
}

// Where the values up to ReqdColltnDt begin.
fn start_front(starts: &mut [u32; profile::FIELDS], r: Front)
    requires { FrontWithin most_bytes r }
    ensures { starts.new ≡ front_from r.first r.level r starts.old }
{
    maybe_start(starts, Field::InstrId, r.first);
    start(starts, Field::EndToEndId, r.ends);
    start(starts, Field::TxId, r.tx);
    start_type(starts, r);
    start(starts, Field::IntrBkSttlmAmt, r.amount);
    start(starts, Field::ChrgBr, r.charge);
    start(starts, Field::ReqdColltnDt, r.collected);
}

// Where the values from MndtId on begin.
fn start_back(starts: &mut [u32; profile::FIELDS], at: usize, r: Back)
    requires { (at ≤ most_bytes) × BackWithin most_bytes r }
    ensures { starts.new ≡ back_from at r.text r starts.old }
{
    start(starts, Field::MndtId, at);
    start(starts, Field::DtOfSgntr, r.signed);
    start(starts, Field::CdtrId, r.identifier);
    start(starts, Field::Prtry, r.scheme);
    start(starts, Field::CdtrNm, r.creditor);
    start(starts, Field::CdtrIban, r.account);
    start(starts, Field::CdtrBic, r.agent);
    start(starts, Field::DbtrNm, r.debtor);
    start(starts, Field::DbtrIban, r.debited);
    start(starts, Field::DbtrBic, r.bank);
    maybe_start(starts, Field::Ustrd, r.text);
}

// The service after an item: its own, where the payment type stands in it.
fn service_from(level: usize, listed: u64, before: Option<u64>) -> Option<u64>
    ensures { result ≡ service_from level listed before }
{
    if level == 0 { before } else { Some(listed) }
}

// What is said of the payment type after an item: what was said first, or whether it stands in this one.
fn said_by(said: Option<bool>, level: usize) -> Option<bool>
    ensures { result ≡ said_by said (stood level) }
{
    match said {
        Some(_) => said,
        None => Some(level != 0),
    }
}

// The state behind an item, with what was found of it.
pub fn note_item(st: State, r: Item) -> State
    requires { FrontWithin most_bytes r.front × BackWithin most_bytes r.back × (st.notes.sum + r.front.cents ≤ most_sum) }
    ensures { stated result ≡ record { at = r.back.at; notes = item_noted st.notes.typed r.front.first r.back.text r st.notes } }
{
    let mut notes = st.notes;
    let front = r.front;
    let back = r.back;
    start_front(&mut notes.starts, front);
    start_back(&mut notes.starts, front.at, back);
    notes.sum = notes.sum + front.cents;
    notes.cents = front.cents;
    notes.typed = said_by(notes.typed, front.level);
    notes.service = service_from(front.level, front.listed, notes.service);
    State {
        at: back.at as u32,
        notes,
    }
}
