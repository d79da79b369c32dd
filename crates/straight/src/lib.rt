// The straight engine: reads the profile without the element table.
#![tactic(auto)]

use crate::before::{Before, Source};
use crate::part::{Message, Sought};
use answers::{Refusal, Refused};
use engine::Several;
use notes::State;
use profile::{Field, Version};
use tags::Look;

mod before;
mod between;
mod exact;
mod leaves;
mod noted;
mod part;
mod pieces;
mod quick;

ghost use Rattle.std.specs.Prelude.{IfSome, ◌≡◌, ◌<◌, ◌≤◌, length};
ghost use Rattle.profile.specs.Limits.{most_bytes};
ghost use Rattle.profile.specs.Profile.{profile};
ghost use Rattle.reading.specs.Trace.{trace};
ghost use Rattle.reading.specs.Noted.{on};
ghost use Rattle.notes.specs.Steps.{stated, stepped, Good, Room, Fine};
ghost use Rattle.engine.specs.Engine.{message_at, places_at, item_at};
ghost use Rattle.engine.specs.Several.{Tells};
ghost use Rattle.straight.specs.Runs.{Texts};
ghost use Rattle.straight.specs.Kept.{Kept};
ghost use Rattle.straight.specs.Exact.{more_of, in_bulk, Makes, Onward};

// The state behind some items, and how many more may come.
#[derive(Clone, Copy)]
struct Ran {
    state: State,
    left: usize,
}

// Items one behind the other, as far as the quick reader tells them; one that may come is left.
// (A `while`: a turn that the quick reader does not tell must leave the number as it is.)
fn swift_items(
    source: Source,
    st: State,
    most: usize,
    places: &mut [u32],
    before: &mut Before,
) -> Ran
    requires { Good source.m.now (stated st) × Room 0 st.notes × (0 < most) × Texts source.t.now × Kept source.m.now source.v before.old }
    ensures { Onward source.entry.v source.entry.m.now most (on (stated st)) places.old result.left (on (stated result.state)) places.new × (0 < result.left) × (result.left ≤ most)
        × Kept source.entry.m.now source.entry.v before.new }
{
    let mut s = st;
    let mut left = most;
    while 1 < left {
        let Some(at) = quick::item_tag(source.m, s.at as usize) else {
            return Ran { state: s, left };
        };
        let Ok(begun) = s.at_place((at - 14) as u32).begin_item() else {
            return Ran { state: s, left };
        };
        let Some(r) = source.read_item(at, begun.notes.typed, begun.notes.service, before) else {
            return Ran { state: s, left };
        };
        engine::file(Field::TxId, r.front.tx as u32, places);
        s = noted::note_item(begun, r);
        left -= 1;
    }
    Ran { state: s, left }
}

// Items that come again, and the end of the bulk: as far as they are told quickly, and one by the exact reader where they are not.
// (A `while`: left falls by several at a turn. A message of n bytes has no more than n items.)
fn more_items(source: Source, st: State, places: &mut [u32]) -> Result<State, Refused>
    requires { Good source.m.now (stated st) × Room 0 st.notes × Texts source.t.now }
    ensures { Makes source.entry.m.now (more_of source.entry.v source.entry.m.now (length source.entry.m.now) st.at) st.notes places.old (stepped result) places.new }
{
    let Source { m, v, .. } = source;
    let message = Message { m, v };
    let mut before = Before::new();
    let mut left = m.len();
    let mut st = st;
    while 0 < left {
        let Ran { state, left: more } = swift_items(source, st, left, places, &mut before);
        let Sought { look, at } = message.seek(b"<DrctDbtTxInf>", state);
        match look {
            Look::Cut => return Err(Refusal::Cut.at(m.len())),
            Look::Other => return message.close(
                b"</FIToFICstmrDrctDbt>",
                state.at_place(at as u32),
            ),
            Look::Whole => {
                st = message.item(state.at_place(at as u32), places)?;
            }
        }
        left = more - 1;
    }
    message.end_tag(b"</FIToFICstmrDrctDbt>", st)
}

// What the bulk holds, up to behind its end tag: the header, and one item or more.
fn in_bulk(source: Source, st: State, places: &mut [u32]) -> Result<State, Refused>
    requires { Good source.m.now (stated st) × Room 0 st.notes × Texts source.t.now }
    ensures { Makes source.entry.m.now (trace (in_bulk source.entry.v) source.entry.m.now st.at) st.notes places.old (stepped result) places.new }
{
    let Source { m, v, .. } = source;
    let message = Message { m, v };
    let st = message.open_tag(b"<GrpHdr>", st)?;
    let st = message.in_header(st, places)?;
    let st = message.first_item(st, places)?;
    more_items(source, st, places)
}

// The bulk, and the end of the root.
fn bulk(source: Source, st: State, places: &mut [u32]) -> Result<State, Refused>
    requires { Good source.m.now (stated st) × Room 0 st.notes × Texts source.t.now }
    ensures { Makes source.entry.m.now (trace (profile source.entry.v) source.entry.m.now st.at) st.notes places.old (stepped result) places.new }
{
    let Source { m, v, .. } = source;
    let message = Message { m, v };
    let st = message.open_tag(b"<FIToFICstmrDrctDbt>", st)?;
    let st = in_bulk(source, st, places)?;
    message.end_tag(b"</Document>", st)
}

// What stands from a place on is read by the whole profile of a version, with nothing noted yet. Rule 1 comes first. Where TxIds begin is lent back.
pub fn message(m: &[u8], at: usize, v: Version, places: &mut [u32]) -> Result<State, Refused>
    ensures { (stepped result ≡ message_at v m.now at) × Fine m.now 0 (stepped result) × (places.new ≡ places_at v m.now at places.old) }
{
    if profile::MOST_BYTES < m.len() || m.len() < at {
        return Err(Refusal::TooLong.at(0));
    }
    let t = quick::texts();
    bulk(Source { m, v, t: &t }, State::new(at as u32), places)
}

// The item that stands at a place, after white space, with nothing noted before it: the state behind it, as far as the quick reader tells it.
fn swift_item(source: Source, p: usize, before: &mut Before) -> Option<State>
    requires { (length source.m.now ≤ most_bytes) × (p ≤ length source.m.now) × Texts source.t.now × Kept source.m.now source.v before.old }
    ensures { IfSome result (λ st. (item_at source.entry.v source.entry.m.now p ≡ on (stated st)) × Good source.entry.m.now (stated st)) × Kept source.entry.m.now source.entry.v before.new }
{
    let at = quick::item_tag(source.m, p)?;
    let b = State::new((at - 14) as u32).begin_item();
    let Ok(begun) = b else {
        return None;
    };
    let r = source.read_item(at, begun.notes.typed, begun.notes.service, before)?;
    Some(noted::note_item(begun, r))
}

// The item that stands at a place, with nothing noted before it: by the quick reader, or by the exact one where that does not tell.
fn alone(source: Source, p: usize, before: &mut Before) -> Result<State, Refused>
    requires { (length source.m.now ≤ most_bytes) × (p ≤ length source.m.now) × Texts source.t.now × Kept source.m.now source.v before.old }
    ensures { (stepped result ≡ item_at source.entry.v source.entry.m.now p) × Fine source.entry.m.now 0 (stepped result) × Kept source.entry.m.now source.entry.v before.new }
{
    if let Some(st) = swift_item(source, p, before) {
        return Ok(st);
    }
    let Source { m, v, .. } = source;
    let mut none = [0; 1];
    Message { m, v }.first_item(State::new(p as u32), &mut none)
}

// The item that stands at a place, after white space, with nothing noted before it.
pub fn item(m: &[u8], at: usize, v: Version) -> Result<State, Refused>
    ensures { (stepped result ≡ item_at v m.now at) × Fine m.now 0 (stepped result) }
{
    if profile::MOST_BYTES < m.len() || m.len() < at {
        return Err(Refusal::TooLong.at(0));
    }
    let t = quick::texts();
    let mut before = Before::new();
    alone(Source { m, v, t: &t }, at, &mut before)
}

// As many items as rows have room for, from a place on, one behind the other; what was kept of those before helps to read the next. None where rule 1 or the place forbids it.
// (`engines::items_by_table` has this loop too: one for both would take how an item is read as a closure, with what it keeps and its contract, and be longer than the loop.)
pub fn items(m: &[u8], at: usize, v: Version, rows: &mut [u64]) -> Several
    ensures { Tells v m.now at rows.old result rows.new }
{
    if profile::MOST_BYTES < m.len() || m.len() < at {
        return Several { read: 0, at };
    }
    let most = rows.len() / engine::ROW;
    let t = quick::texts();
    let source = Source { m, v, t: &t };
    let mut before = Before::new();
    let mut p = at;
    for i in 0..most {
        let Ok(st) = alone(source, p, &mut before) else {
            return Several { read: i, at: p };
        };
        let from = engine::ROW * i;
        engine::tell(&mut rows[from..from + engine::ROW], st.notes);
        p = st.at as usize;
    }
    Several { read: most, at: p }
}
