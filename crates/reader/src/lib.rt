// The table-led engine: a group reader and an element reader that call each other, led by the table of the profile.
#![tactic(auto)]

ghost use Rattle.std.specs.Prelude.{◌≡◌, true, ◌+◌, ◌≤◌, ◌<◌, length, drop};
ghost use Rattle.text.specs.Truth.{pick};
ghost use Rattle.tags.specs.Tags.{skipped, look};
ghost use Rattle.profile.specs.Tree.{more};
ghost use Rattle.reading.specs.Trace.{up_to, begins, missing, priced, trace};
ghost use Rattle.reading.specs.Noted.{on, stop, Ended};
ghost use Rattle.table.specs.Table.{tags, table, many_rows, row_in, occ_of, mark_name, amount_due, width, opens_by, closes_by, due, Element};
ghost use Rattle.items.specs.Sums.{most_sum, of_amount, amounts_in};
ghost use Rattle.notes.specs.declared.Notes.{Notes};
ghost use Rattle.notes.specs.Notes.{added_up};
ghost use Rattle.notes.specs.Steps.{stated, stepped, reads, Good, Room, Fine};
ghost use Rattle.engine.specs.Engine.{closed_by, valued_by, placed, message_at, places_at, item_at};
ghost use Rattle.reader.specs.Reader.{entered, element_in, amounts_of};

use answers::{Refusal, Refused};
use notes::State;
use profile::{Field, Kind, Version};
use table::{Occ, Row, What};
use tags::Look;

// On past white space. Good says that a state lies within the message: each step asks it anew, since a state holds no message.
fn skip(m: &[u8], st: State) -> State
    requires { Good m.now (stated st) }
    ensures { (stated result ≡ record { at = skipped m.now st.at; notes = st.notes }) × Good m.now (stated result) × (st.at ≤ result.at) }
{
    let at = st.at as usize;
    let n = tags::spaces(&m[at..]);
    st.at_place((at + n) as u32)
}

// Where an element that may come `occ` is not there: 4 where it is due; of the payment type it is noted.
fn pass(occ: Occ, typed: bool, st: State) -> Result<State, Refused>
    ensures { stepped result ≡ reads (missing (occ_of occ) (mark_name typed) st.at (up_to st.at)) st.notes }
{
    match occ {
        Occ::Once | Occ::Many => Err(Refusal::OtherTag.at(st.at as usize)),
        Occ::Optional if typed => st.say_type(false),
        _ => Ok(st),
    }
}

// One item more, where the element is one; of the payment type it is noted that it is there.
fn begin(occ: Occ, typed: bool, st: State) -> Result<State, Refused>
    ensures { stepped result ≡ reads (begins (occ_of occ) (mark_name typed) st.at (up_to st.at)) st.notes }
{
    match occ {
        Occ::Optional if typed => st.say_type(true),
        Occ::Once | Occ::Optional => Ok(st),
        _ => st.begin_item(),
    }
}

// Past an amount's start tag, which ends at the state's place: its currency is EUR, or 6.
fn check_currency(m: &[u8], st: State) -> Result<State, Refused>
    ensures { stepped result ≡ reads (priced true m.now st.at) st.notes }
{
    let at = st.at as usize;
    if tags::in_euro(m, at) {
        return Ok(st);
    }
    Err(Refusal::Currency.at(tags::currency_place(at)))
}

// The running sum, with the cents of an amount that was noted.
fn add_up(k: Kind, st: State) -> State
    requires { (added_up k st.notes).sum ≤ most_sum }
    ensures { stated result ≡ record { at = st.at; notes = added_up k st.notes } }
{
    match k {
        Kind::Amount => st.with_sum(st.notes.sum + st.notes.cents),
        _ => st,
    }
}

// How an element may come now: again, where it may and has come before.
fn due_now(seen: bool, occ: Occ) -> Occ
    ensures { occ_of result ≡ pick seen more (occ_of occ) }
{
    if seen { Occ::More } else { occ }
}

// A message, and what leads its reading: a version, its tags and its rows.
#[derive(Clone, Copy)]
struct Led<'a> {
    m: &'a [u8],
    v: Version,
    names: &'a [u8],
    rows: &'a [u64],
}

impl Led<'_> {
    // A row's end tag, which is due at the state's place.
    fn close(self, r: Row, st: State) -> Result<State, Refused>
        requires { Good self.m.now (stated st) × (r.finish ≡ length (closes_by self.names.now r)) }
        ensures { (stepped result ≡ reads (closed_by (closes_by self.entry.names.now r) self.entry.m.now st.at) st.notes) × Fine self.entry.m.now st.at (stepped result) }
    {
        let at = st.at as usize;
        engine::expect_whole(table::closing(self.names, r, &self.m[at..]), self.m, at)?;
        Ok(st.at_place((at + usize::from(r.finish)) as u32))
    }

    // How a row's start tag lies at a place.
    fn start_at(self, r: Row, at: usize) -> Look
        requires { at ≤ length self.m.now }
        ensures { result ≡ look (opens_by self.entry.names.now r) (drop at self.entry.m.now) }
    {
        table::opening(self.names, r, &self.m[at..])
    }

    // Past a row's start tag, which lies whole at the state's place.
    fn enter(self, r: Row, st: State) -> Result<State, Refused>
        requires { Good self.m.now (stated st) × (st.at + width r ≤ length self.m.now) × (0 < r.start) }
        ensures { (stepped result ≡ reads (entered (occ_of r.occ) (mark_name r.typed) (amount_due r.what) (width r) self.entry.m.now st.at) st.notes) × Fine self.entry.m.now (st.at + 1) (stepped result) }
    {
        let begun = begin(r.occ, r.typed, st)?;
        let past = st.at as usize + table::width_of(r);
        let t = begun.at_place(past as u32);
        if table::is_amount(r.what) {
            return check_currency(self.m, t);
        }
        Ok(t)
    }

    // The value at the state's place, and its end tag.
    fn value(
        self,
        r: Row,
        kind: Kind,
        field: Field,
        st: State,
        places: &mut [u32],
    ) -> Result<State, Refused>
        requires { Good self.m.now (stated st) × (r.finish ≡ length (closes_by self.names.now r)) × Room (of_amount kind) st.notes }
        ensures { (stepped result ≡ reads (valued_by (closes_by self.entry.names.now r) kind field self.entry.m.now st.at) st.notes) × Fine self.entry.m.now st.at (stepped result) × (places.new ≡ placed (valued_by (closes_by self.entry.names.now r) kind field self.entry.m.now st.at) st.notes places.old) }
    {
        let at = st.at as usize;
        let e = at + tags::upto(&self.m[at..]);
        if e == self.m.len() {
            return Err(Refusal::Cut.at(e));
        }
        let noted = notes::note(kind, field, &self.m[at..e], st)?;
        engine::file(field, at as u32, places);
        self.close(r, add_up(kind, noted).at_place(e as u32))
    }

    // What is due from row `first` up to the end of its group.
    // (A `loop`: it steps by `next` from row to row, stays at one that may come again, and ends in the row that is an end; it and `element` call each other.)
    #[cycle(element_group)]
    fn group(self, first: usize, start: State, places: &mut [u32]) -> Result<State, Refused>
        requires { Good self.m.now (stated start) × (first < many_rows self.v) × (self.names.now ≡ tags self.v) × (self.rows.now ≡ table self.v) × Room (amounts_in (due self.v first)) start.notes }
        ensures { (stepped result ≡ reads (trace (due self.entry.v first) self.entry.m.now start.at) start.notes) × Fine self.entry.m.now start.at (stepped result) × (places.new ≡ placed (trace (due self.entry.v first) self.entry.m.now start.at) start.notes places.old) }
    {
        let mut k = first;
        let mut seen = false;
        let mut st = start;
        loop {
            let r = table::row_at(self.rows, k);
            st = skip(self.m, st);
            if let What::End = r.what {
                return self.close(r, st);
            }
            let occ = due_now(seen, r.occ);
            seen = false;
            match self.start_at(r, st.at as usize) {
                Look::Cut => return Err(Refusal::Cut.at(self.m.len())),
                Look::Other => {
                    st = pass(occ, r.typed, st)?;
                    k = usize::from(r.next);
                }
                Look::Whole => {
                    st = self.element(k, st, places)?;
                    if occ.repeats() {
                        seen = true;
                    } else {
                        k = usize::from(r.next);
                    }
                }
            }
        }
    }

    // Row k's element, from the `<` of its start tag, which lies whole at the state's place.
    #[cycle(element_group)]
    fn element(self, k: usize, st: State, places: &mut [u32]) -> Result<State, Refused>
        requires { Good self.m.now (stated st) × (k < many_rows self.v) × Element (due self.v k) × (st.at + width (row_in (table self.v) k) ≤ length self.m.now) × (self.names.now ≡ tags self.v) × (self.rows.now ≡ table self.v) × Room (amounts_of (due self.v k)) st.notes }
        ensures { (stepped result ≡ reads (element_in (due self.entry.v k) self.entry.m.now st.at) st.notes) × Fine self.entry.m.now (st.at + 1) (stepped result) × (places.new ≡ placed (element_in (due self.entry.v k) self.entry.m.now st.at) st.notes places.old) }
    {
        let r = table::row_at(self.rows, k);
        let s = self.enter(r, st)?;
        match r.what {
            What::Value(kind, field) => self.value(r, kind, field, s, places),
            _ => self.group(k + 1, s, places),
        }
    }
}

// What stands from a place on is read by the whole profile of a version, with nothing noted yet. Rule 1 comes first. Where TxIds begin is lent back.
pub fn message(m: &[u8], at: usize, v: Version, places: &mut [u32]) -> Result<State, Refused>
    ensures { (stepped result ≡ message_at v m.now at) × Fine m.now 0 (stepped result) × (places.new ≡ places_at v m.now at places.old) }
{
    if profile::MOST_BYTES < m.len() || m.len() < at {
        return Err(Refusal::TooLong.at(0));
    }
    let st = State::new(at as u32);
    let names = table::tags_of(v);
    let rows = table::rows_of(v);
    let led = Led {
        m,
        v,
        names: &names,
        rows: &rows,
    };
    led.group(0, st, places)
}

// The item that stands at a place, after white space, with nothing noted before it.
pub fn item(m: &[u8], at: usize, v: Version) -> Result<State, Refused>
    ensures { (stepped result ≡ item_at v m.now at) × Fine m.now 0 (stepped result) }
{
    if profile::MOST_BYTES < m.len() || m.len() < at {
        return Err(Refusal::TooLong.at(0));
    }
    let st = State::new(at as u32);
    let names = table::tags_of(v);
    let rows = table::rows_of(v);
    let led = Led {
        m,
        v,
        names: &names,
        rows: &rows,
    };
    let mut none = [0; 1];
    let q = skip(m, st);
    let k = table::item_row();
    let at = q.at as usize;
    engine::expect_whole(led.start_at(table::row_at(&rows, k), at), m, at)?;
    led.element(k, q, &mut none)
}
