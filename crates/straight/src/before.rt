// What is kept of the items before one, and helps to read it: how its runs of tags were spelled, stretches of several elements, and how long values were.
ghost use Rattle.std.specs.Prelude.{◌≡◌, ◌+◌, ◌<◌, ◌≤◌, List, ℕ, length, slice_index, IfSome};
ghost use Rattle.profile.specs.declared.Version.{Version};
ghost use Rattle.straight.specs.Spelled.{Spelled};
ghost use Rattle.straight.specs.Runs.{text_at, Texts};
ghost use Rattle.straight.specs.Kept.{Kept};

use crate::{between, quick};
use profile::Version;

// How a run was spelled: where, and in how many bytes; 0 bytes where that is not known, and how many items go by until it is kept again.
// (No Option: `again` answers None for fewer than 16 bytes, and 0 are fewer, so an Option would be taken apart only to ask that once more.)
#[derive(Clone, Copy)]
pub struct Spelling {
    pub place: usize,
    pub length: usize,
    pub waits: usize,
}

// A stretch of an item: the place behind a value, and what was found from there on.
#[derive(Clone, Copy)]
pub struct Stretch<T> {
    pub from: usize,
    pub found: T,
}

// Where the codes of the payment type begin, which code LclInstrm is, and the value of the amount.
// (0 where the type is not there: these places go as they are into the notes' starts, plain numbers in fixed memory of which 0 is none.)
#[derive(Clone, Copy)]
pub struct Codes {
    pub at: usize,
    pub level: usize,
    pub service: usize,
    pub sequence: usize,
    pub listed: u64,
}

// Where ChrgBr and ReqdColltnDt begin, and the value of MndtId.
#[derive(Clone, Copy)]
pub struct Charged {
    pub at: usize,
    pub charge: usize,
    pub collected: usize,
}

// Where the values of the creditor's side begin, and the debtor's name.
#[derive(Clone, Copy)]
pub struct CreditorSide {
    pub at: usize,
    pub identifier: usize,
    pub scheme: usize,
    pub name: usize,
    pub account: usize,
    pub agent: usize,
}

// How long values were: guesses, of which nothing is said. Each value is read by its guess, and then keeps its own length as the next.
#[derive(Clone, Copy)]
pub struct Lengths {
    pub instr_id: usize,
    pub end_to_end_id: usize,
    pub tx_id: usize,
    pub mndt_id: usize,
    pub ustrd: usize,
}

// What is kept of the items before, all of one message and one version.
// (Kept, which each step asks, is no invariant of it: it tells of a message and a version, and this holds neither; they would have to be lent to it beside Source.)
#[derive(Clone, Copy)]
pub struct Before {
    pub runs: [Spelling; between::MANY],
    pub typed: Option<Stretch<Codes>>,
    pub charged: Option<Stretch<Charged>>,
    pub creditor: Option<Stretch<CreditorSide>>,
    pub lengths: Lengths,
}

impl Before {
    // Of no item.
    pub fn new() -> Before
        ensures { (m : List ℕ) (v : Version) → Kept m v result }
    {
        Before {
            runs: [Spelling {
                place: 0,
                length: 0,
                waits: 0,
            }; between::MANY],
            typed: None,
            charged: None,
            creditor: None,
            lengths: Lengths {
                instr_id: 0,
                end_to_end_id: 0,
                tx_id: 0,
                mndt_id: 0,
                ustrd: 0,
            },
        }
    }
}

// Of the texts, how many bytes there are for each run; and which of them says how long its text is. How long its tags are follows.
const ROW: usize = 96;

const LENGTH: usize = 80;

// What items are read from: the message, its version, and the texts of the runs.
#[derive(Clone, Copy)]
pub struct Source<'a> {
    pub m: &'a [u8],
    pub v: Version,
    pub t: &'a [u8],
}

impl Source<'_> {
    // How run j is spelled at a place is kept, if nothing is. Where it was spelled otherwise before, it may be so again: then nothing is kept for some items, which are spelled at once.
    fn keep_run(self, at: usize, e: usize, before: &mut Before, j: usize)
        requires { (j < 29) × Spelled self.m.now at (text_at j) e × Kept self.m.now self.v before.old }
        ensures { Kept self.entry.m.now self.entry.v before.new }
    {
        let known = &mut before.runs[j];
        if known.length != 0 {
            known.length = 0;
            known.waits = 8;
            return;
        }
        if known.waits != 0 {
            known.waits -= 1;
            return;
        }
        known.place = at;
        known.length = e - at;
    }

    // Run j as an item before this one spelled it: the place behind it.
    pub fn as_before(self, at: usize, before: &Before, j: usize) -> Option<usize>
        requires { (at ≤ length self.m.now) × (j < 29) × Kept self.m.now self.v before.now }
        ensures { IfSome result (Spelled self.entry.m.now at (text_at j)) }
    {
        let known = before.runs[j];
        quick::again(self.m, at, known.place, known.length)
    }

    // Run j spelled anew, tag by tag.
    pub fn anew(self, at: usize, before: &mut Before, j: usize) -> Option<usize>
        requires { (at ≤ length self.m.now) × (j < 29) × Texts self.t.now × Kept self.m.now self.v before.old }
        ensures { IfSome result (Spelled self.entry.m.now at (text_at j)) × Kept self.entry.m.now self.entry.v before.new }
    {
        let t = self.t;
        let from = ROW * j;
        let n = t[from + LENGTH] as usize;
        let e = quick::spell(
            self.m,
            at,
            &t[from..from + n],
            &t[from + LENGTH + 1..from + ROW],
        )?;
        self.keep_run(at, e, before, j);
        Some(e)
    }

    // Run j: as an item before this one spelled it, or anew.
    pub fn run(self, at: usize, before: &mut Before, j: usize) -> Option<usize>
        requires { (at ≤ length self.m.now) × (j < 29) × Texts self.t.now × Kept self.m.now self.v before.old }
        ensures { IfSome result (Spelled self.entry.m.now at (text_at j)) × Kept self.entry.m.now self.entry.v before.new }
    {
        if let Some(e) = self.as_before(at, before, j) {
            return Some(e);
        }
        self.anew(at, before, j)
    }
}
