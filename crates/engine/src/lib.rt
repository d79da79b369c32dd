// What every engine does, whatever leads it: what is due is asked for; where TxIds begin is filed; what an item noted is told in a row.
#![tactic(auto)]

ghost use Rattle.std.specs.Prelude.{◌≡◌, length};
ghost use Rattle.tags.specs.Tags.{on_look};
ghost use Rattle.reading.specs.Noted.{on, stop, Ended};
ghost use Rattle.notes.specs.declared.Notes.{Notes};
ghost use Rattle.engine.specs.Engine.{going_on, filed_by};
ghost use Rattle.engine.specs.Several.{told_in};

use answers::{Refusal, Refused};
use notes::Notes;
use profile::Field;
use tags::Look;

// What is due at a place lies there whole; else 3 where the message ends within it, 4 where something else stands.
pub fn expect_whole(look: Look, m: &[u8], at: usize) -> Result<(), Refused>
    ensures { (s : Ended Notes) → going_on s result ≡ on_look look (on s) (stop 3 (length m.now)) (stop 4 at) }
{
    match look {
        Look::Whole => Ok(()),
        Look::Cut => Err(Refusal::Cut.at(m.len())),
        Look::Other => Err(Refusal::OtherTag.at(at)),
    }
}

// Where a TxId begins, behind those that were read before it; the first number says how many there are.
// (The caller lends the list, of fixed memory, and gets it back: a list that keeps its own count is a Vec, which needs a heap.)
pub fn file(f: Field, at: u32, places: &mut [u32])
    ensures { places.new ≡ filed_by f at places.old }
{
    if f != Field::TxId || places.is_empty() {
        return;
    }
    let many = places[0];
    let next = many as usize + 1;
    if many < profile::MOST_ITEMS as u32 && next < places.len() {
        places[0] = many + 1;
        places[next] = at;
    }
}

// How many numbers are told of an item.
pub const ROW: usize = profile::FIELDS + 1;

// How many items were read in one call, and the place behind the last.
#[derive(Clone, Copy)]
pub struct Several {
    pub read: usize,
    pub at: usize,
}

// Where the last value of each field begins, and the cents, at the front of a part that has room for a row; else nothing.
pub fn tell(part: &mut [u64], n: Notes)
    ensures { part.new ≡ told_in n part.old }
{
    if part.len() < ROW {
        return;
    }
    for (i, start) in n.starts.iter().enumerate() {
        part[i] = u64::from(*start);
    }
    part[profile::FIELDS] = n.cents;
}
