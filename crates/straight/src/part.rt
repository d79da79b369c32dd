// Parts of the exact reader: an element, a group's tags, a value in one group or two.
ghost use Rattle.std.specs.Prelude.{◌≡◌, ◌≤◌, ◌++◌, length, drop};
ghost use Rattle.tags.specs.Tags.{skipped, look, exactly, currency};
ghost use Rattle.items.specs.Sums.{of_amount};
ghost use Rattle.notes.specs.Steps.{stated, stepped, reads, Good, Room, Fine};
ghost use Rattle.engine.specs.Engine.{closed_by, valued_by};
ghost use Rattle.straight.specs.Exact.{leaf_of, end_of, open_of, enter_of, one_of, two_of, inside_of, may_of, Makes};

use crate::leaves::Leaf;
use answers::{Refusal, Refused};
use notes::State;
use profile::{Field, Kind, Version};
use tags::Look;

// A message, and the version by which it is read. (Good, which each step asks, is no invariant: it ties a state to a message, and neither holds the other.)
// (Where TxIds begin is lent beside it. Inside it, as was tried, each contract must say that message, version and loan stay, and each proof of more than
// three steps must spell every step to carry that on.)
#[derive(Clone, Copy)]
pub struct Message<'a> {
    pub m: &'a [u8],
    pub v: Version,
}

// How a start tag lies after white space, and where that is.
#[derive(Clone, Copy)]
pub struct Sought {
    pub look: Look,
    pub at: usize,
}

impl Message<'_> {
    // A start tag is sought after white space.
    pub fn seek(self, start: &[u8], st: State) -> Sought
        requires { Good self.m.now (stated st) }
        ensures { (result.at ≡ skipped self.entry.m.now st.at) × (result.at ≤ length self.entry.m.now) × (result.look ≡ look (exactly start.now) (drop result.at self.entry.m.now)) }
    {
        let from = st.at as usize;
        let at = from + tags::spaces(&self.m[from..]);
        let look = tags::text_at(start, &self.m[at..]);
        Sought { look, at }
    }

    // An end tag, which is due right here.
    pub fn close(self, finish: &[u8], st: State) -> Result<State, Refused>
        requires { Good self.m.now (stated st) }
        ensures { (stepped result ≡ reads (closed_by (exactly finish.now) self.entry.m.now st.at) st.notes) × Fine self.entry.m.now st.at (stepped result) }
    {
        let at = st.at as usize;
        engine::expect_whole(tags::text_at(finish, &self.m[at..]), self.m, at)?;
        Ok(st.at_place((at + finish.len()) as u32))
    }

    // A group's end tag, which is due after white space.
    pub fn end_tag(self, finish: &[u8], st: State) -> Result<State, Refused>
        requires { Good self.m.now (stated st) }
        ensures { (stepped result ≡ reads (end_of finish.now self.entry.m.now st.at) st.notes) × Fine self.entry.m.now st.at (stepped result) }
    {
        let from = st.at as usize;
        let at = from + tags::spaces(&self.m[from..]);
        self.close(finish, st.at_place(at as u32))
    }

    // A group's start tag, which is due.
    pub fn open_tag(self, start: &[u8], st: State) -> Result<State, Refused>
        requires { Good self.m.now (stated st) }
        ensures { (stepped result ≡ reads (open_of start.now self.entry.m.now st.at) st.notes) × Fine self.entry.m.now st.at (stepped result) }
    {
        let Sought { look, at } = self.seek(start, st);
        engine::expect_whole(look, self.m, at)?;
        Ok(st.at_place((at + start.len()) as u32))
    }

    // The value at the state's place, which is no amount of an item, and its end tag.
    pub fn value(self, leaf: Leaf<'_>, st: State, places: &mut [u32]) -> Result<State, Refused>
        requires { Good self.m.now (stated st) × (of_amount leaf.kind ≡ 0) }
        ensures { Makes self.entry.m.now (valued_by (exactly leaf.entry.finish.now) leaf.entry.kind leaf.entry.field self.entry.m.now st.at) st.notes places.old (stepped result) places.new }
    {
        let at = st.at as usize;
        let e = at + tags::upto(&self.m[at..]);
        if e == self.m.len() {
            return Err(Refusal::Cut.at(e));
        }
        let st = notes::note(leaf.kind, leaf.field, &self.m[at..e], st)?;
        engine::file(leaf.field, at as u32, places);
        self.close(leaf.finish, st.at_place(e as u32))
    }

    // A value's element, after white space; where it `may` be there it is passed over if it is not.
    pub fn leaf(
        self,
        leaf: Leaf<'_>,
        may: bool,
        st: State,
        places: &mut [u32],
    ) -> Result<State, Refused>
        requires { Good self.m.now (stated st) × (of_amount leaf.kind ≡ 0) }
        ensures { Makes self.entry.m.now (leaf_of may leaf.entry.start.now leaf.entry.finish.now leaf.entry.kind leaf.entry.field self.entry.m.now st.at) st.notes places.old (stepped result) places.new }
    {
        let Sought { look, at } = self.seek(leaf.start, st);
        match look {
            Look::Whole => self.value(leaf, st.at_place((at + leaf.start.len()) as u32), places),
            Look::Cut => Err(Refusal::Cut.at(self.m.len())),
            Look::Other if may => Ok(st.at_place(at as u32)),
            Look::Other => Err(Refusal::OtherTag.at(at)),
        }
    }

    // A value in one group.
    pub fn one(
        self,
        start: &[u8],
        leaf: Leaf<'_>,
        finish: &[u8],
        st: State,
        places: &mut [u32],
    ) -> Result<State, Refused>
        requires { Good self.m.now (stated st) × (of_amount leaf.kind ≡ 0) }
        ensures { Makes self.entry.m.now (one_of start.now leaf.entry.start.now leaf.entry.finish.now finish.now leaf.entry.kind leaf.entry.field self.entry.m.now st.at) st.notes places.old (stepped result) places.new }
    {
        let st = self.open_tag(start, st)?;
        let st = self.leaf(leaf, false, st, places)?;
        self.end_tag(finish, st)
    }

    // A value in two groups.
    pub fn two(
        self,
        outer: &[u8],
        start: &[u8],
        leaf: Leaf<'_>,
        finish: &[u8],
        end: &[u8],
        st: State,
        places: &mut [u32],
    ) -> Result<State, Refused>
        requires { Good self.m.now (stated st) × (of_amount leaf.kind ≡ 0) }
        ensures { Makes self.entry.m.now (two_of outer.now start.now leaf.entry.start.now leaf.entry.finish.now finish.now end.now leaf.entry.kind leaf.entry.field self.entry.m.now st.at) st.notes places.old (stepped result) places.new }
    {
        let st = self.open_tag(outer, st)?;
        let st = self.one(start, leaf, finish, st, places)?;
        self.end_tag(end, st)
    }

    // A value and the end of its group.
    fn inside(
        self,
        leaf: Leaf<'_>,
        finish: &[u8],
        st: State,
        places: &mut [u32],
    ) -> Result<State, Refused>
        requires { Good self.m.now (stated st) × (of_amount leaf.kind ≡ 0) }
        ensures { Makes self.entry.m.now (inside_of leaf.entry.start.now leaf.entry.finish.now finish.now leaf.entry.kind leaf.entry.field self.entry.m.now st.at) st.notes places.old (stepped result) places.new }
    {
        let st = self.leaf(leaf, false, st, places)?;
        self.end_tag(finish, st)
    }

    // A value in a group that is 0 or 1 and is not the payment type.
    pub fn may_one(
        self,
        start: &[u8],
        leaf: Leaf<'_>,
        finish: &[u8],
        st: State,
        places: &mut [u32],
    ) -> Result<State, Refused>
        requires { Good self.m.now (stated st) × (of_amount leaf.kind ≡ 0) }
        ensures { Makes self.entry.m.now (may_of start.now leaf.entry.start.now leaf.entry.finish.now finish.now leaf.entry.kind leaf.entry.field self.entry.m.now st.at) st.notes places.old (stepped result) places.new }
    {
        let Sought { look, at } = self.seek(start, st);
        match look {
            Look::Whole => self.inside(
                leaf,
                finish,
                st.at_place((at + start.len()) as u32),
                places,
            ),
            Look::Cut => Err(Refusal::Cut.at(self.m.len())),
            Look::Other => Ok(st.at_place(at as u32)),
        }
    }

    // An amount's start tag is sought after white space, with its currency.
    fn seek_amount(self, start: &[u8], st: State) -> Sought
        requires { Good self.m.now (stated st) }
        ensures { (result.at ≡ skipped self.entry.m.now st.at) × (result.at ≤ length self.entry.m.now) × (result.look ≡ look (exactly start.now ++ currency) (drop result.at self.entry.m.now)) }
    {
        let Sought { look, at } = self.seek(start, st);
        match look {
            Look::Whole => Sought {
                look: tags::currency_at(&self.m[at + start.len()..]),
                at,
            },
            _ => Sought { look, at },
        }
    }

    // An amount's start tag, which is due, and EUR in it, or 6.
    pub fn enter(self, start: &[u8], st: State) -> Result<State, Refused>
        requires { Good self.m.now (stated st) }
        ensures { (stepped result ≡ reads (enter_of start.now self.entry.m.now st.at) st.notes) × Fine self.entry.m.now st.at (stepped result) }
    {
        let Sought { look, at } = self.seek_amount(start, st);
        engine::expect_whole(look, self.m, at)?;
        let e = at + start.len() + tags::CURRENCY;
        if tags::in_euro(self.m, e) {
            return Ok(st.at_place(e as u32));
        }
        Err(Refusal::Currency.at(tags::currency_place(e)))
    }

    // An item's amount at the state's place, which is added to the running sum, and its end tag.
    // (Apart from `value`: only here is room for the sum asked, and one function for both would ask it of every value.)
    pub fn sum_value(
        self,
        finish: &[u8],
        f: Field,
        st: State,
        places: &mut [u32],
    ) -> Result<State, Refused>
        requires { Good self.m.now (stated st) × Room 1 st.notes }
        ensures { Makes self.entry.m.now (valued_by (exactly finish.now) Kind.Amount f self.entry.m.now st.at) st.notes places.old (stepped result) places.new }
    {
        let at = st.at as usize;
        let e = at + tags::upto(&self.m[at..]);
        if e == self.m.len() {
            return Err(Refusal::Cut.at(e));
        }
        let st = notes::note(Kind::Amount, f, &self.m[at..e], st)?;
        engine::file(f, at as u32, places);
        let st = st.with_sum(st.notes.sum + st.notes.cents);
        self.close(finish, st.at_place(e as u32))
    }
}
