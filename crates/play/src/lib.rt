// A day played back from a recording: each record one call of the day book, from the emptied book.
#![tactic(auto)]

ghost use Rattle.std.specs.Prelude.{◌≡◌, List, [], ◌∷◌, ◌++◌, ℕ, suc, ◌+◌, ◌≤◌, ◌<◌, length, take, get_or, Some, Ok, IfOk, OnErr};
ghost use Rattle.std.specs.Option.{option_map};
ghost use Rattle.accounts.specs.Lengths.{in_one};
ghost use Rattle.items.specs.Sums.{most_sum};
ghost use Rattle.naming.specs.Key.{keyed};
ghost use Rattle.twice.specs.Twice.{cleared};
ghost use Rattle.sums.specs.Sums.{lot_of};
ghost use Rattle.book.specs.Book.{most_open, open_in, first_at};
ghost use Rattle.book.specs.Calls.{enter, withdraw};
ghost use Rattle.book.specs.Stored.{kept};
ghost use Rattle.book.specs.Code.{in_range, left_out, lent};
ghost use Rattle.keys.specs.Engine.{keyed_as};
ghost use Rattle.recording.specs.Record.{line_of, line_as};
ghost use Rattle.play.specs.Table.{table_of};
ghost use Rattle.play.specs.Play.{emptied, carried_on, enters, enters_next, step_of, record_at, records, ended, played, played_with};
ghost use Rattle.play.specs.Code.{run_as, stepped, Within, most_cell, Light, AllLight, Sound, added_row, with_lot, message_in, played_as, FreshIndex};

use answers::{Refusal, Refused};
use book::{Call, Entry, Numbers};
use recording::{Line, Side};
use sums::{Lot, Weighed};

// What a run keeps beside the lent entries: the book's numbers; what each open bulk adds to the table, in the order of the open ones; how many messages are taken; the last instant.
#[derive(Clone, Copy)]
pub struct Run {
    pub numbers: Numbers,
    pub lots: [Lot; book::MOST],
    pub taken: usize,
    pub last: u64,
}

// How many records were carried out; and the table, laid flat.
#[derive(Clone, Copy)]
pub struct Played {
    pub records: usize,
    pub table: [u64; 8],
}

// A bulk is entered, and what it adds to the table stands behind that of the others.
fn put_in(
    entries: &mut [Entry],
    run: Run,
    bulk: Entry,
    lot: Lot,
    instant: u64,
) -> Result<Run, Refused>
    requires sound { Sound run }
    requires light { Light lot }
    requires fits { run.taken + 1 < 18446744073709551616 }
    ensures step { stepped entries.new result ≡ carried_on (kept (enter (in_range bulk)) (lent entries.old run.numbers))
        (take run.numbers.opened run.lots ++ (lot ∷ [])) (run.taken + 1) instant }
    ensures sound { IfOk result Sound }
    ensures kept { OnErr result (entries.new ≡ entries.old) }
{
    let mut numbers = run.numbers;
    let opened = numbers.opened;
    book::act(entries, &mut numbers, Call::Enter(bulk))?;
    let mut lots = run.lots;
    lots[opened] = lot;
    Ok(Run {
        numbers,
        lots,
        taken: run.taken + 1,
        last: instant,
    })
}

// A key is withdrawn, and what its bulk adds to the table goes.
fn take_out(
    entries: &mut [Entry],
    run: Run,
    key: [u8; naming::LENGTH],
    instant: u64,
) -> Result<Run, Refused>
    requires room { most_open ≤ length entries.old }
    requires sound { Sound run }
    ensures step { stepped entries.new result ≡ carried_on (kept (withdraw key) (lent entries.old run.numbers))
        (left_out (first_at key (take run.numbers.opened entries.old)) (take run.numbers.opened run.lots)) run.taken instant }
    ensures sound { IfOk result Sound }
    ensures kept { OnErr result (entries.new ≡ entries.old) }
{
    let mut numbers = run.numbers;
    let opened = numbers.opened;
    let place = book::place_of(&entries[..opened], &key);
    book::act(entries, &mut numbers, Call::Withdraw(key))?;
    let mut lots = run.lots;
    if let Some(at) = place {
        lots.copy_within(at + 1..opened, at);
    }
    Ok(Run {
        numbers,
        lots,
        taken: run.taken,
        last: instant,
    })
}

// Two rows of the table added.
fn add_rows(a: [u64; 4], b: [u64; 4]) -> [u64; 4]
    requires { Within most_cell a × Within most_sum b }
    ensures { result ≡ added_row a b }
{
    [a[0] + b[0], a[1] + b[1], a[2] + b[2], a[3] + b[3]]
}

// The table with what one bulk adds.
fn add_lot(t: [[u64; 4]; 2], x: Lot) -> [[u64; 4]; 2]
    requires { Within most_cell (get_or t 0 []) × Within most_cell (get_or t 1 []) × Light x }
    ensures { result ≡ with_lot t x }
{
    let [core, b2b] = t;
    match x.service {
        1 => [add_rows(core, x.sums), b2b],
        2 => [core, add_rows(b2b, x.sums)],
        _ => t,
    }
}

// The table of the open bulks.
fn table_of(lots: &[Lot]) -> [[u64; 4]; 2]
    requires few { length lots.now ≤ most_open }
    requires light { AllLight lots.now }
    ensures { result ≡ table_of lots.now }
{
    let mut table = [[0; 4]; 2];
    for lot in lots {
        // A call's array is bound first: laid into `table` itself, the function gets no generated proof.
        let more = add_lot(table, *lot);
        table = more;
    }
    table
}

// The table laid flat.
fn lay_flat(t: [[u64; 4]; 2]) -> [u64; 8]
    ensures { (l : List Lot) → t ≡ table_of l → result ≡ in_one (table_of l) }
{
    let a = t[0];
    let b = t[1];
    [a[0], a[1], a[2], a[3], b[0], b[1], b[2], b[3]]
}

// Message j, from the end before it, or 0, to its own: none where no message is left, or its end falls or lies outside the buffer.
fn message<'a>(buffer: &'a [u8], ends: &'a [u64], j: usize) -> Option<&'a [u8]>
    ensures { option_map (λ m. m.now) result ≡ message_in buffer.now ends.now j }
{
    let to = *ends.get(j)? as usize;
    let from = if j == 0 { 0 } else { ends[j - 1] as usize };
    buffer.get(from..to)
}

// A message that was weighed is entered under the record's key: the judge's own refusal; 28 where the keys differ; the book's own.
fn enter_as(entries: &mut [Entry], run: Run, line: Line, weighed: Weighed) -> Result<Run, Refused>
    requires sound { Sound run }
    requires light { Light weighed.lot }
    requires fits { run.taken + 1 < 18446744073709551616 }
    ensures step { (m : List ℕ) → keyed_as (Ok weighed.keyed) ≡ keyed m → weighed.lot ≡ lot_of m
        → stepped entries.new result ≡ enters m (line_as (Some line)) (run_as entries.old run) }
    ensures sound { IfOk result Sound }
    ensures kept { OnErr result (entries.new ≡ entries.old) }
{
    let Weighed { keyed, lot } = weighed;
    if keyed.key != line.key {
        return Err(Refusal::OtherMessage.at(0));
    }
    let bulk = Entry {
        key: keyed.key,
        cents: keyed.accepted.cents,
    };
    put_in(entries, run, bulk, lot, line.instant)
}

// The next message is entered: 28 where there is none that lies in the buffer.
fn enter_next(
    buffer: &[u8],
    ends: &[u64],
    index: &mut [u32],
    entries: &mut [Entry],
    run: Run,
    line: Line,
) -> Result<Run, Refused>
    requires sound { Sound run }
    requires fresh { FreshIndex index.old }
    ensures step { stepped entries.new result ≡ enters_next buffer.now ends.now (line_as (Some line)) (run_as entries.old run) }
    ensures sound { IfOk result Sound }
    ensures kept { OnErr result (entries.new ≡ entries.old) }
    ensures index { index.new ≡ index.old }
{
    let Some(message) = message(buffer, ends, run.taken) else {
        return Err(Refusal::OtherMessage.at(0));
    };
    let weighed = sums::weigh(message, index)?;
    enter_as(entries, run, line, weighed)
}

// One record: 26, 27, and then an entry or a withdrawal. Where it is refused, the book is as before. The place that the judge or the book tells gives way to the record's number.
fn step_on(
    buffer: &[u8],
    ends: &[u64],
    index: &mut [u32],
    entries: &mut [Entry],
    run: Run,
    said: Option<Line>,
) -> Result<Run, Refused>
    requires room { most_open ≤ length entries.old }
    requires sound { Sound run }
    requires fresh { FreshIndex index.old }
    ensures step { stepped entries.new result ≡ step_of buffer.now ends.now (line_as said) (run_as entries.old run) }
    ensures sound { IfOk result Sound }
    ensures kept { OnErr result (entries.new ≡ entries.old) }
    ensures index { index.new ≡ index.old }
{
    let Some(line) = said else {
        return Err(Refusal::NoRecord.at(0));
    };
    if line.instant < run.last {
        return Err(Refusal::TimeFalls.at(0));
    }
    match line.side {
        Side::Entry => enter_next(buffer, ends, index, entries, run, line),
        Side::Withdrawal => take_out(entries, run, line.key, line.instant),
    }
}

// How many records a recording of so many bytes has, a last one that is too short among them.
fn count_records(recording: &[u8]) -> usize
    ensures { result ≡ records recording.now }
{
    recording.len().div_ceil(recording::LENGTH)
}

// What record i says.
fn line_at(recording: &[u8], i: usize) -> Option<Line>
    requires { i < records recording.now }
    ensures { line_as result ≡ line_of (record_at recording.now i) }
{
    let rest = &recording[recording::LENGTH * i..];
    recording::read_line(&rest[..rest.len().min(recording::LENGTH)])
}

// The run before the first record: no bulk is open.
fn begin() -> Run
    ensures emptied { (l : List Entry) → run_as l result ≡ emptied l }
    ensures sound { Sound result }
{
    let none = Lot {
        service: 0,
        sums: [0; 4],
    };
    Run {
        numbers: Numbers {
            opened: 0,
            total: 0,
        },
        lots: [none; book::MOST],
        taken: 0,
        last: 0,
    }
}

// After the last record: 28 where messages are left over, else the table.
fn finish(ends: &[u64], run: Run, records: usize) -> Result<Played, Refused>
    requires { Sound run }
    ensures { (l : List Entry) → played_as l run.numbers result ≡ ended ends.now records (run_as l run) }
{
    if run.taken < ends.len() {
        return Err(Refusal::OtherMessage.at(records));
    }
    Ok(Played {
        records,
        table: lay_flat(table_of(&run.lots[..run.numbers.opened])),
    })
}

// All records, one behind the other, up to the first that is refused.
fn play_on(
    recording: &[u8],
    buffer: &[u8],
    ends: &[u64],
    entries: &mut [Entry],
    run: &mut Run,
    index: &mut [u32],
) -> Result<Played, Refused>
    requires room { most_open ≤ length entries.old }
    requires begun { (l : List Entry) → run_as l run.old ≡ emptied l }
    requires sound { Sound run.old }
    requires fresh { FreshIndex index.old }
    ensures played { played_as entries.new run.new.numbers result ≡ played recording.now buffer.now ends.now entries.old }
    ensures index { index.new ≡ index.old }
{
    let n = count_records(recording);
    for i in 0..n {
        let said = line_at(recording, i);
        match step_on(buffer, ends, index, entries, *run, said) {
            Ok(next) => *run = next,
            Err(refused) => return Err(refused.why.at(i)),
        }
    }
    finish(ends, *run, n)
}

// A day played back on a lent book: 25, 29, and then the run from the emptied book. The index is cleared.
// (Entries and numbers are two, as the C face lends them.)
pub fn play(
    recording: &[u8],
    buffer: &[u8],
    ends: &[u64],
    entries: &mut [Entry],
    numbers: &mut Numbers,
    index: &mut [u32],
) -> Result<Played, Refused>
    ensures played { played_as entries.new numbers.new result ≡ played_with index.old recording.now buffer.now ends.now (lent entries.old numbers.old) }
    ensures index { index.new ≡ cleared index.old }
{
    if index.len() < twice::LEAST_INDEX {
        return Err(Refusal::ShortIndex.at(0));
    }
    index.fill(0);
    if entries.len() < book::MOST {
        return Err(Refusal::NoBook.at(0));
    }
    let mut run = begin();
    let told = play_on(recording, buffer, ends, entries, &mut run, index);
    *numbers = run.numbers;
    told
}
