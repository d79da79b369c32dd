// The engines, each by its name: one question, whichever is to read.
#![tactic(auto)]

ghost use Rattle.std.specs.Prelude.{◌≡◌};
ghost use Rattle.notes.specs.Steps.{stepped, Fine};
ghost use Rattle.engine.specs.Engine.{message_at, places_at, item_at};
ghost use Rattle.engine.specs.Several.{Tells};

use answers::Refused;
use engine::Several;
use notes::State;
use profile::Version;

// An engine is asked for by its name, which `judge` and `records` hand down as a value: a trait would need two empty types, each with every contract below
// word for word, and who asks would name a type where he names a word now.
#[derive(Clone, Copy)]
pub enum Engine {
    // Led by the table of the profile.
    Table,
    // Without the table.
    Straight,
}

// What stands from a place on is read by the whole profile of a version, with nothing noted yet. Rule 1 comes first. Where TxIds begin is lent back.
pub fn message(
    e: Engine,
    m: &[u8],
    at: usize,
    v: Version,
    places: &mut [u32],
) -> Result<State, Refused>
    ensures { (stepped result ≡ message_at v m.now at) × Fine m.now 0 (stepped result) × (places.new ≡ places_at v m.now at places.old) }
{
    match e {
        Engine::Table => reader::message(m, at, v, places),
        Engine::Straight => straight::message(m, at, v, places),
    }
}

// The item that stands at a place, after white space, with nothing noted before it.
pub fn item(e: Engine, m: &[u8], at: usize, v: Version) -> Result<State, Refused>
    ensures { (stepped result ≡ item_at v m.now at) × Fine m.now 0 (stepped result) }
{
    match e {
        Engine::Table => reader::item(m, at, v),
        Engine::Straight => straight::item(m, at, v),
    }
}

// Several items by the table-led engine, each read alone.
fn items_by_table(m: &[u8], at: usize, v: Version, rows: &mut [u64]) -> Several
    ensures { Tells v m.now at rows.old result rows.new }
{
    let most = rows.len() / engine::ROW;
    let mut p = at;
    for i in 0..most {
        let Ok(st) = reader::item(m, p, v) else {
            return Several { read: i, at: p };
        };
        let from = engine::ROW * i;
        engine::tell(&mut rows[from..from + engine::ROW], st.notes);
        p = st.at as usize;
    }
    Several { read: most, at: p }
}

// As many items as rows have room for, from a place on, one behind the other, and a row of each.
pub fn items(e: Engine, m: &[u8], at: usize, v: Version, rows: &mut [u64]) -> Several
    ensures { Tells v m.now at rows.old result rows.new }
{
    match e {
        Engine::Table => items_by_table(m, at, v, rows),
        Engine::Straight => straight::items(m, at, v, rows),
    }
}
