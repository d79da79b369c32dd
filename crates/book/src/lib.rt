// The day book: a lent list of entries, the open ones first in order of entry; and what each call answers and leaves.
#![tactic(auto)]

ghost use Rattle.std.specs.Prelude.{◌≡◌, ◌≤◌, length, take, List};
ghost use Rattle.money.specs.declared.Range.TheVariants.{Total};
ghost use Rattle.money.specs.Amount.{most};
ghost use Rattle.book.specs.Book.{most_open, two_equal, sum_of};
ghost use Rattle.book.specs.Calls.{done, enter, withdraw, enters, withdraws, asked};
ghost use Rattle.book.specs.Stored.{carried, kept, shown};
ghost use Rattle.book.specs.Code.{in_range, call_as, told_as, place_in, capped, book_of, lent, leaves};

use answers::{Refusal, Refused};

// How many bulks are open at most, and how many places a book has at least.
pub const MOST: usize = 64;

// An open bulk: its key and its cents. It has the layout of C, since the face lends it.
#[repr(C)]
#[derive(Clone, Copy)]
pub struct Entry {
    pub key: [u8; naming::LENGTH],
    pub cents: u64,
}

// The number open and the open total, which are stored beside the list.
// (C lends the whole list, and its places past the open ones keep what they held: so the number stands beside it, and no shorter slice.)
// (And C lends the two apart, so functions take both: a struct of two loans would have to say in each contract that it holds the same ones still.)
#[derive(Clone, Copy)]
pub struct Numbers {
    pub opened: usize,
    pub total: u64,
}

// A call that changes the book: a bulk to enter, a key to withdraw, or a message to enter that the judge refused.
#[derive(Clone, Copy)]
pub enum Call {
    Enter(Entry),
    Withdraw([u8; naming::LENGTH]),
    Unfit(Refused),
}

// Where the first of the lent entries that has the key stands.
pub fn place_of(bulks: &[Entry], key: &[u8; naming::LENGTH]) -> Option<usize>
    ensures { result ≡ place_in key.now bulks.now }
{
    bulks.iter().position(|e| *key == e.key)
}

// Whether two of the open entries have the same key: each is looked for among those behind it.
fn two_equal(bulks: &[Entry]) -> bool
    ensures { result ≡ two_equal bulks.now }
{
    match bulks {
        [] => false,
        [e, behind @ ..] => place_of(behind, &e.key).is_some() || two_equal(behind),
    }
}

// The sum of the open entries, where it is in the header's range.
fn sum(bulks: &[Entry]) -> Option<u64>
    ensures { result ≡ capped (sum_of bulks.now) }
{
    let mut sum: u64 = 0;
    for e in bulks {
        if money::MOST_TOTAL - sum < e.cents {
            return None;
        }
        sum += e.cents;
    }
    Some(sum)
}

// What summing gives, of the list as C lends it and the number beside it; 29 where the lent book is none: under 64 places, over 64 open, two open keys equal, or too high a sum.
pub fn check(entries: &[Entry], opened: usize) -> Result<u64, Refused>
    ensures { told_as result ≡ asked (book_of entries.now opened) }
{
    let none = Refusal::NoBook.at(0);
    if entries.len() < MOST || MOST < opened {
        return Err(none);
    }
    let bulks = &entries[..opened];
    if two_equal(bulks) {
        return Err(none);
    }
    sum(bulks).ok_or(none)
}

// The open total: the stored one as it stands, whatever the entries are.
pub fn show(numbers: Numbers) -> u64
    ensures { (l : List Entry) → done result ≡ shown (lent l numbers) }
{
    numbers.total
}

// An entry behind the open ones: 20 where its key is open already, 21 where 64 are open. No header says more cents than its range has, so the sum does not overflow.
fn enter(entries: &mut [Entry], numbers: &mut Numbers, e: Entry) -> Result<u64, Refused>
    requires room { most_open ≤ length entries.old }
    requires few { numbers.old.opened ≤ most_open }
    requires within { numbers.old.total ≤ most Total }
    ensures { leaves result entries.new numbers.new ≡ carried (enter (in_range e)) numbers.old.total (enters (in_range e) (book_of entries.old numbers.old.opened)) }
{
    let Numbers { opened, total } = *numbers;
    if money::MOST_TOTAL < e.cents {
        return Err(Refusal::Range.at(0));
    }
    if place_of(&entries[..opened], &e.key).is_some() {
        return Err(Refusal::KeyOpen.at(0));
    }
    if opened == MOST {
        return Err(Refusal::BookFull.at(0));
    }
    entries[opened] = e;
    *numbers = Numbers {
        opened: opened + 1,
        total: total + e.cents,
    };
    Ok(e.cents)
}

// The first entry with the key goes, and the open ones behind it move down one place; 22 where none has it. The places past the open ones keep what they held.
fn withdraw(
    entries: &mut [Entry],
    numbers: &mut Numbers,
    key: &[u8; naming::LENGTH],
) -> Result<u64, Refused>
    requires room { most_open ≤ length entries.old }
    requires few { numbers.old.opened ≤ most_open }
    requires sum { numbers.old.total ≡ sum_of (take numbers.old.opened entries.old) }
    ensures { leaves result entries.new numbers.new ≡ carried (withdraw key.now) numbers.old.total (withdraws key.now (book_of entries.old numbers.old.opened)) }
{
    let Numbers { opened, total } = *numbers;
    let Some(at) = place_of(&entries[..opened], key) else {
        return Err(Refusal::KeyNotOpen.at(0));
    };
    let cents = entries[at].cents;
    entries.copy_within(at + 1..opened, at);
    *numbers = Numbers {
        opened: opened - 1,
        total: total - cents,
    };
    Ok(cents)
}

// A call that changes the book: 29 first, where it is none or the stored total is not what summing gives. A refusal leaves all as it was lent.
pub fn act(entries: &mut [Entry], numbers: &mut Numbers, call: Call) -> Result<u64, Refused>
    ensures { leaves result entries.new numbers.new ≡ kept (call_as call) (lent entries.old numbers.old) }
{
    if check(entries, numbers.opened)? != numbers.total {
        return Err(Refusal::NoBook.at(0));
    }
    match call {
        Call::Enter(e) => enter(entries, numbers, e),
        Call::Withdraw(key) => withdraw(entries, numbers, &key),
        Call::Unfit(refused) => Err(refused),
    }
}
