// The judge: one message, one answer, the first fault.
#![tactic(auto)]

ghost use Rattle.std.specs.Prelude.{◌≡◌, ◌≤◌, length, get_or};
ghost use Rattle.tags.specs.Tags.{skipped};
ghost use Rattle.profile.specs.Version.{versions};
ghost use Rattle.profile.specs.Fields.{field_number};
ghost use Rattle.profile.specs.Limits.{most_bytes};
ghost use Rattle.reading.specs.Trace.{rooted, opened};
ghost use Rattle.reading.specs.Judged.{judged};
ghost use Rattle.notes.specs.Steps.{stated, stepped, Fine};
ghost use Rattle.judge.specs.Verdict.{meant, located, opened_as, version_of};
ghost use Rattle.judge.specs.Found.{found_as};
ghost use Rattle.judge.specs.Survey.{surveyed_as, survey};
ghost use Rattle.judge.specs.Index.{judged_with, item_with, found_with, survey_with};
ghost use Rattle.twice.specs.Twice.{cleared};
ghost use Rattle.judge.specs.Engine.{Within, root_or, through_in, compared_in, finished_in, walked_in, survey_but, filed_in, filed_of, unless_second};

use answers::{Refusal, Refused};
use engines::Engine;
use notes::{Notes, State};
use profile::{Field, Version};
use tags::Look;

// An accepted message: its count, and its total in cents.
#[derive(Clone, Copy, PartialEq, Eq)]
pub struct Accepted {
    pub count: u64,
    pub cents: u64,
}

// What a message is judged: accepted, or refused for its first fault.
pub type Verdict = Result<Accepted, Refused>;

// Where an item lies: from its `<` to behind its `>`.
#[derive(Clone, Copy, PartialEq, Eq)]
pub struct Extent {
    pub from: usize,
    pub to: usize,
}

// The version that a message's root names, and where reading goes on behind its root tag.
#[derive(Clone, Copy)]
pub struct Opened {
    pub version: Version,
    pub at: usize,
}

// What is found of an accepted message: also where its first item begins.
#[derive(Clone, Copy)]
pub struct Finding {
    pub accepted: Accepted,
    pub first: usize,
}

// What is found of an accepted message, and what was noted of it: its items' LclInstrm as its place in its list, and where the
// last value of each field begins (the list `starts` of the notes, as the definitions name it).
#[derive(Clone, Copy)]
pub struct Survey {
    pub finding: Finding,
    pub service: Option<u64>,
    pub starts: [u32; profile::FIELDS],
}

impl Survey {
    // Where the last value of a field begins, 0 where there is none.
    // (No Option: this public promise may not change, nor the meaning of `field_at`, in specs/ of keys, which goes on by the number, 0 too.)
    pub fn start_of(&self, f: Field) -> usize
        ensures { result ≡ get_or self.now.starts (field_number f) 0 }
    {
        self.starts[profile::number_of(f)] as usize
    }
}

// How many numbers the list of TxIds' places has: how many there are, and where each begins.
const PLACES: usize = 10_001;

// Past a version's root tag, which may lie at a place; where it does not, what is given.
fn root_or(
    v: Version,
    m: &[u8],
    at: usize,
    other: Result<Opened, Refused>,
) -> Result<Opened, Refused>
    requires { (at ≤ length m.now) × Within m.now (opened_as other) }
    ensures { (opened_as result ≡ root_or v m.now at (opened_as other)) × Within m.now (opened_as result) }
{
    match profile::root_at(v, &m[at..]) {
        Look::Whole => Ok(Opened {
            version: v,
            at: at + profile::ROOT,
        }),
        Look::Cut => Err(Refusal::Cut.at(m.len())),
        Look::Other => other,
    }
}

// Past white space and the root tag, which is due there.
fn enter_root(m: &[u8], from: usize) -> Result<Opened, Refused>
    requires { from ≤ length m.now }
    ensures { (opened_as result ≡ rooted versions m.now (skipped m.now from)) × Within m.now (opened_as result) }
{
    let at = from + tags::spaces(&m[from..]);
    let newer = root_or(Version::V08, m, at, Err(Refusal::Beginning.at(at)));
    root_or(Version::V02, m, at, newer)
}

// Past the declaration, where there is one, and the root tag.
fn open_message(m: &[u8]) -> Result<Opened, Refused>
    ensures { (opened_as result ≡ opened m.now) × Within m.now (opened_as result) }
{
    if !tags::has_question(m) {
        return enter_root(m, 0);
    }
    match tags::declaration_at(m) {
        Look::Whole => enter_root(m, tags::DECLARATION),
        Look::Cut => Err(Refusal::Cut.at(m.len())),
        Look::Other => Err(Refusal::Beginning.at(0)),
    }
}

// A whole message, read up to the end of its root; where its TxIds begin is lent back.
// (Engine, message and places stay three parameters: they go through two functions, and a struct of them would be taken apart in each.)
fn read_through(e: Engine, m: &[u8], places: &mut [u32]) -> Result<State, Refused>
    requires { length m.now ≤ most_bytes }
    ensures { (stepped result ≡ through_in m.now (opened m.now)) × Fine m.now 0 (stepped result) × (places.new ≡ filed_in m.now (opened m.now) places.old) }
{
    let o = open_message(m)?;
    engines::message(e, m, o.at, o.version, places)
}

// The version that a message's root names; the first one where it names none.
pub fn version_of(m: &[u8]) -> Version
    ensures { result ≡ version_of m.now }
{
    match open_message(m) {
        Ok(o) => o.version,
        Err(_) => Version::V02,
    }
}

// What the header says, against what was read.
fn compare(n: Notes) -> Result<Finding, Refused>
    ensures { found_as result ≡ compared_in n }
{
    if n.number != n.count {
        return Err(Refusal::Count.at(n.numberat as usize));
    }
    if n.total != n.sum {
        return Err(Refusal::Total.at(n.totalat as usize));
    }
    Ok(Finding {
        accepted: Accepted {
            count: n.count,
            cents: n.sum,
        },
        first: n.first as usize,
    })
}

// Behind the end of the root.
fn finish(m: &[u8], st: State) -> Result<Finding, Refused>
    requires { st.at ≤ length m.now }
    ensures { found_as result ≡ finished_in m.now (stated st) }
{
    let at = st.at as usize;
    let end = at + tags::spaces(&m[at..]);
    if end < m.len() {
        return Err(Refusal::Behind.at(end));
    }
    compare(st.notes)
}

// What a message of any bytes is found to be without the rule of 24, and what was noted of it; where its TxIds begin is lent back.
fn read_but(e: Engine, m: &[u8], places: &mut [u32]) -> Result<Survey, Refused>
    ensures { (surveyed_as result ≡ survey_but m.now) × (places.new ≡ filed_of m.now places.old) }
{
    if profile::MOST_BYTES < m.len() {
        return Err(Refusal::TooLong.at(0));
    }
    let st = read_through(e, m, places)?;
    let finding = finish(m, st)?;
    let Notes {
        service,
        starts,
        ..
    } = st.notes;
    Ok(Survey {
        finding,
        service,
        starts,
    })
}

// 24 where the earliest second TxId begins, if there is one.
fn unless_second(s: Result<Survey, Refused>, second: Option<usize>) -> Result<Survey, Refused>
    ensures { surveyed_as result ≡ unless_second second (surveyed_as s) }
{
    match second {
        Some(at) => Err(Refusal::TxIdTwice.at(at)),
        None => s,
    }
}

// What a message of any bytes is found to be, read by an engine, and what was noted of it; 25 where the index has too few numbers. The index is cleared,
// whatever it held.
pub fn read_by(e: Engine, m: &[u8], index: &mut [u32]) -> Result<Survey, Refused>
    ensures { (surveyed_as result ≡ survey_with index.old m.now) × (index.new ≡ cleared index.old) }
{
    if index.len() < twice::LEAST_INDEX {
        return Err(Refusal::ShortIndex.at(0));
    }
    let mut places = [0; PLACES];
    let s = read_but(e, m, &mut places);
    unless_second(s, twice::quickly(m, &places[1..], index))
}

// The same by the straight engine.
pub fn read(m: &[u8], index: &mut [u32]) -> Result<Survey, Refused>
    ensures { (surveyed_as result ≡ survey_with index.old m.now) × (index.new ≡ cleared index.old) }
{
    read_by(Engine::Straight, m, index)
}

// The same without an index, by the plain search.
pub fn read_plainly(m: &[u8]) -> Result<Survey, Refused>
    ensures { surveyed_as result ≡ survey m.now }
{
    let mut places = [0; PLACES];
    let s = read_but(Engine::Straight, m, &mut places);
    unless_second(s, twice::plainly(m, &places[1..]))
}

// What a message of any bytes is found to be.
pub fn find(m: &[u8], index: &mut [u32]) -> Result<Finding, Refused>
    ensures { (found_as result ≡ found_with index.old m.now) × (index.new ≡ cleared index.old) }
{
    Ok(read(m, index)?.finding)
}

// A message of any bytes, read by an engine: accepted with its count and cents, or its first fault.
fn judge_by(e: Engine, m: &[u8], index: &mut [u32]) -> Verdict
    ensures { (meant result ≡ judged_with index.old m.now) × (index.new ≡ cleared index.old) }
{
    Ok(read_by(e, m, index)?.finding.accepted)
}

// A message of any bytes: accepted with its count and cents, or its first fault.
pub fn judge(m: &[u8], index: &mut [u32]) -> Verdict
    ensures { (meant result ≡ judged_with index.old m.now) × (index.new ≡ cleared index.old) }
{
    judge_by(Engine::Straight, m, index)
}

// The same by the table-led engine.
pub fn judge_by_table(m: &[u8], index: &mut [u32]) -> Verdict
    ensures { (meant result ≡ judged_with index.old m.now) × (index.new ≡ cleared index.old) }
{
    judge_by(Engine::Table, m, index)
}

// `judge` without an index, by the plain search.
pub fn judge_plainly(m: &[u8]) -> Verdict
    ensures { meant result ≡ judged m.now }
{
    Ok(read_plainly(m)?.finding.accepted)
}

// Where what stands at a place begins, after white space.
fn begin_at(m: &[u8], at: usize) -> usize
    ensures { result ≡ skipped m.now at }
{
    if m.len() < at {
        return at;
    }
    at + tags::spaces(&m[at..])
}

// Item i of those that stand from a place on, read as a version.
fn walk(v: Version, m: &[u8], i: u64, first: usize) -> Result<Extent, Refused>
    ensures { located result ≡ walked_in i v m.now first }
{
    let mut at = first;
    for _ in 0..i {
        at = engines::item(Engine::Straight, m, at, v)?.at as usize;
    }
    let st = engines::item(Engine::Straight, m, at, v)?;
    Ok(Extent {
        from: begin_at(m, at),
        to: st.at as usize,
    })
}

// Where item i lies, counted from 0; the judge's own refusal first, and 18 where it is not there.
pub fn item(m: &[u8], i: u64, index: &mut [u32]) -> Result<Extent, Refused>
    ensures { (located result ≡ item_with index.old i m.now) × (index.new ≡ cleared index.old) }
{
    let f = find(m, index)?;
    if f.accepted.count <= i {
        return Err(Refusal::NoItem.at(0));
    }
    walk(version_of(m), m, i, f.first)
}
