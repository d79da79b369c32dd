// The C face and nothing else: every public function once more, by the name under which `bulk_c` exports it.
// Each takes any bytes, and writes all three words of `answer`, `bulk_play` all ten, by the table of specs/Told.antt.
#![tactic(auto)]

ghost use Rattle.std.specs.Prelude.{◌≡◌, List, [], ◌∷◌, get_or};
ghost use Rattle.answers.specs.Refusals.{refusal_number};
ghost use Rattle.answers.specs.Given.{given_yes, given_worth};
ghost use Rattle.words.specs.Reference.{reference_given};
ghost use Rattle.words.specs.EndToEnd.{end_to_end_given};
ghost use Rattle.words.specs.Text.{text_given};
ghost use Rattle.calendar.specs.Date.{date_given};
ghost use Rattle.calendar.specs.Time.{time_given};
ghost use Rattle.money.specs.Count.{count_given};
ghost use Rattle.money.specs.Amount.{amount_given};
ghost use Rattle.accounts.specs.Iban.{iban_given};
ghost use Rattle.accounts.specs.Identifier.{identifier_given};
ghost use Rattle.accounts.specs.Bic.{bic_given, bicfi_given};
ghost use Rattle.bulk.specs.Told.{told, told_verdict, told_extent, told_written, PlainTold, told_book, told_call, told_is, told_found, told_played, lent_book, numbers_of};
ghost use Rattle.plain.specs.Answer.{answered};
ghost use Rattle.twice.specs.Twice.{cleared};
ghost use Rattle.keys.specs.Indexed.{keyed_with};
ghost use Rattle.book.specs.Calls.{bulk_of, enter, withdraw, searched};
ghost use Rattle.book.specs.Stored.{kept, shown, stands};
ghost use Rattle.book.specs.Code.{call_as, told_as, searched_as, sum_is, lent};
ghost use Rattle.judge.specs.Verdict.{meant, located};
ghost use Rattle.reading.specs.Judged.{judged};
ghost use Rattle.judge.specs.Index.{judged_with, item_with};
ghost use Rattle.records.specs.Indexed.{recorded_with};
ghost use Rattle.play.specs.Play.{played_with};
ghost use Rattle.play.specs.Code.{played_as};

use answers::{Refusal, Refused};
use book::{Call, Entry, Numbers};
use judge::{Extent, Verdict};
use money::Range;
use play::Played;
use words::Field;

// Writes the three words of a refusal.
fn tell_refused(r: Refused, answer: &mut [u64; 3])
    ensures { answer.new ≡ refusal_number r.why ∷ r.at ∷ 0 ∷ [] }
{
    *answer = [u64::from(r.why.number()), r.at as u64, 0];
}

// Writes the three words of a checker that says yes.
// (One function for each answer that is told: each cites its own word of specs/Told.antt; a trait would state each of them once more, and be no plainer.)
fn tell(r: Result<(), Refusal>, answer: &mut [u64; 3])
    ensures { answer.new ≡ told (given_yes r) }
{
    match r {
        Ok(()) => *answer = [0, 0, 0],
        Err(why) => tell_refused(why.at(0), answer),
    }
}

// Writes the three words of a checker that tells a number or cents.
fn tell_worth(r: Result<u64, Refusal>, answer: &mut [u64; 3])
    ensures { answer.new ≡ told (given_worth r) }
{
    match r {
        Ok(n) => *answer = [0, n, 0],
        Err(why) => tell_refused(why.at(0), answer),
    }
}

// Writes the three words of a verdict.
fn tell_verdict(v: Verdict, answer: &mut [u64; 3])
    ensures { answer.new ≡ told_verdict (meant v) }
{
    match v {
        Ok(a) => *answer = [0, a.count, a.cents],
        Err(r) => tell_refused(r, answer),
    }
}

// Writes the three words of where an item lies.
fn tell_extent(x: Result<Extent, Refused>, answer: &mut [u64; 3])
    ensures { answer.new ≡ told_extent (located x) }
{
    match x {
        Ok(e) => *answer = [0, e.from as u64, e.to as u64],
        Err(r) => tell_refused(r, answer),
    }
}

// Writes the three words of a plain form.
fn tell_written(w: Result<usize, Refused>, answer: &mut [u64; 3])
    ensures { answer.new ≡ told_written (answered w) }
{
    match w {
        Ok(length) => *answer = [0, length as u64, 0],
        Err(r) => tell_refused(r, answer),
    }
}

// A message: 0, the count and the cents; or the number, the place and 0. The index is cleared; 25, 0, 0 where it has under 16,384 numbers, and it is as lent.
pub fn bulk_judge(message: &[u8], index: &mut [u32], answer: &mut [u64; 3])
    ensures { (answer.new ≡ told_verdict (judged_with index.old message.now)) × (index.new ≡ cleared index.old) }
{
    tell_verdict(judge::judge(message, index), answer);
}

// The same by the table-led engine.
pub fn bulk_judge_by_table(message: &[u8], index: &mut [u32], answer: &mut [u64; 3])
    ensures { (answer.new ≡ told_verdict (judged_with index.old message.now)) × (index.new ≡ cleared index.old) }
{
    tell_verdict(judge::judge_by_table(message, index), answer);
}

// `bulk_judge` without an index, by the plain search.
pub fn bulk_judge_plainly(message: &[u8], answer: &mut [u64; 3])
    ensures { answer.new ≡ told_verdict (judged message.now) }
{
    tell_verdict(judge::judge_plainly(message), answer);
}

// Item i of a message: 0, the place of its `<` and the place behind its `>`; or the number, the place and 0.
pub fn bulk_item(message: &[u8], i: u64, index: &mut [u32], answer: &mut [u64; 3])
    ensures { (answer.new ≡ told_extent (item_with index.old i message.now)) × (index.new ≡ cleared index.old) }
{
    tell_extent(judge::item(message, i, index), answer);
}

// A message and a record area: the three words as of `bulk_judge`, or 17, 0, 0 where the area is too small;
// and a record for each item, or the area as lent.
pub fn bulk_records(message: &[u8], area: &mut [u8], index: &mut [u32], answer: &mut [u64; 3])
    ensures { (answer.new ≡ told_verdict (recorded_with index.old message.now area.old).verdict)
        × (area.new ≡ (recorded_with index.old message.now area.old).area) × (index.new ≡ cleared index.old) }
{
    tell_verdict(records::records(message, area, index), answer);
}

// The same by the table-led engine.
pub fn bulk_records_by_table(
    message: &[u8],
    area: &mut [u8],
    index: &mut [u32],
    answer: &mut [u64; 3],
)
    ensures { (answer.new ≡ told_verdict (recorded_with index.old message.now area.old).verdict)
        × (area.new ≡ (recorded_with index.old message.now area.old).area) × (index.new ≡ cleared index.old) }
{
    tell_verdict(records::records_by_table(message, area, index), answer);
}

// The plain form: 0, its length and 0, and the area begins with it; or the number, the place and 0, and the area is as lent.
pub fn bulk_plain(message: &[u8], area: &mut [u8], index: &mut [u32], answer: &mut [u64; 3])
    ensures { PlainTold index.old message.now area.old answer.new area.new × (index.new ≡ cleared index.old) }
{
    tell_written(plain::write(message, area, index), answer);
}

// An IBAN.
pub fn bulk_iban(value: &[u8], answer: &mut [u64; 3])
    ensures { answer.new ≡ told (iban_given value.now) }
{
    tell(accounts::iban(value), answer);
}

// A creditor identifier.
pub fn bulk_creditor_id(value: &[u8], answer: &mut [u64; 3])
    ensures { answer.new ≡ told (identifier_given value.now) }
{
    tell(accounts::creditor_id(value), answer);
}

// A BIC.
pub fn bulk_bic(value: &[u8], answer: &mut [u64; 3])
    ensures { answer.new ≡ told (bic_given value.now) }
{
    tell(accounts::bic(value), answer);
}

// A BIC in its wider form, as version 001.08 has it.
pub fn bulk_bicfi(value: &[u8], answer: &mut [u64; 3])
    ensures { answer.new ≡ told (bicfi_given value.now) }
{
    tell(accounts::bicfi(value), answer);
}

// A date.
pub fn bulk_date(value: &[u8], answer: &mut [u64; 3])
    ensures { answer.new ≡ told (date_given value.now) }
{
    tell(calendar::date(value), answer);
}

// A time.
pub fn bulk_time(value: &[u8], answer: &mut [u64; 3])
    ensures { answer.new ≡ told (time_given value.now) }
{
    tell(calendar::time(value), answer);
}

// A reference.
pub fn bulk_reference(value: &[u8], answer: &mut [u64; 3])
    ensures { answer.new ≡ told (reference_given value.now) }
{
    tell(words::reference(value), answer);
}

// An EndToEndId: 0, or 7.
pub fn bulk_end_to_end(value: &[u8], answer: &mut [u64; 3])
    ensures { answer.new ≡ told (end_to_end_given value.now) }
{
    tell(words::end_to_end(value), answer);
}

// A text of at most 70.
pub fn bulk_text70(value: &[u8], answer: &mut [u64; 3])
    ensures { answer.new ≡ told (text_given Field.Nm value.now) }
{
    tell(words::text(Field::Nm, value), answer);
}

// A text of at most 140.
pub fn bulk_text140(value: &[u8], answer: &mut [u64; 3])
    ensures { answer.new ≡ told (text_given Field.Ustrd value.now) }
{
    tell(words::text(Field::Ustrd, value), answer);
}

// A count: the second word is its number.
pub fn bulk_count(value: &[u8], answer: &mut [u64; 3])
    ensures { answer.new ≡ told (count_given value.now) }
{
    tell_worth(money::count(value), answer);
}

// An item's amount: the second word is its cents.
pub fn bulk_item_amount(value: &[u8], answer: &mut [u64; 3])
    ensures { answer.new ≡ told (amount_given Range.Item value.now) }
{
    tell_worth(money::amount(Range::Item, value), answer);
}

// The header total: the second word is its cents.
pub fn bulk_header_amount(value: &[u8], answer: &mut [u64; 3])
    ensures { answer.new ≡ told (amount_given Range.Total value.now) }
{
    tell_worth(money::amount(Range::Total, value), answer);
}

// The number open and the open total, which C lends as two words.
fn numbers_in(numbers: &[u64; 2]) -> Numbers
    ensures { result ≡ record { opened = get_or numbers.now 0 0; total = get_or numbers.now 1 0 } }
{
    Numbers {
        opened: numbers[0] as usize,
        total: numbers[1],
    }
}

// Writes the three words of a call of the day book that left so many open. (C's second word, and no length of a slice.)
fn tell_book(told: Result<u64, Refused>, opened: usize, answer: &mut [u64; 3])
    ensures { answer.new ≡ told_book (told_as told) opened }
{
    match told {
        Ok(cents) => *answer = [0, opened as u64, cents],
        Err(r) => tell_refused(r, answer),
    }
}

// Writes the three words of whether a lent book is one: it is checked, and its sum is the total that is stored.
fn tell_is(sum: Result<u64, Refused>, total: u64, answer: &mut [u64; 3])
    ensures { answer.new ≡ told_is (sum_is sum total) }
{
    match sum {
        Ok(cents) if total == cents => *answer = [0, 0, 0],
        _ => *answer = [u64::from(Refusal::NoBook.number()), 0, 0],
    }
}

// Writes the three words of a search.
fn tell_found(found: Result<Option<usize>, Refused>, answer: &mut [u64; 3])
    ensures { answer.new ≡ told_found (searched_as found) }
{
    match found {
        Ok(Some(at)) => *answer = [0, 1, at as u64],
        Ok(None) => *answer = [0, 0, 0],
        Err(r) => tell_refused(r, answer),
    }
}

// Makes a call of the lent book; writes the two numbers, and the three words.
fn change<'a>(
    entries: &'a mut [Entry],
    numbers: &'a mut [u64; 2],
    call: Call,
    answer: &'a mut [u64; 3],
)
    ensures { (answer.new ≡ told_call (kept (call_as call) (lent_book entries.old numbers.old)))
        × (numbers.new ≡ numbers_of (kept (call_as call) (lent_book entries.old numbers.old)).stored)
        × (entries.new ≡ (kept (call_as call) (lent_book entries.old numbers.old)).stored.book.entries) }
{
    let mut held = numbers_in(numbers);
    let told = book::act(entries, &mut held, call);
    *numbers = [held.opened as u64, held.total];
    tell_book(told, held.opened, answer);
}

// A message is entered into the day book: 0, the number open, the bulk's cents; or number, place, 0, and the book as lent. `numbers` holds the number open and the open total.
// The index is cleared.
pub fn bulk_book_enter<'a>(
    entries: &'a mut [Entry],
    numbers: &'a mut [u64; 2],
    message: &'a [u8],
    index: &'a mut [u32],
    answer: &'a mut [u64; 3],
)
    ensures { (answer.new ≡ told_call (kept (enter (bulk_of (keyed_with index.old message.now))) (lent_book entries.old numbers.old)))
        × (numbers.new ≡ numbers_of (kept (enter (bulk_of (keyed_with index.old message.now))) (lent_book entries.old numbers.old)).stored)
        × (entries.new ≡ (kept (enter (bulk_of (keyed_with index.old message.now))) (lent_book entries.old numbers.old)).stored.book.entries)
        × (index.new ≡ cleared index.old) }
{
    let call = keys::entering(message, index);
    change(entries, numbers, call, answer);
}

// A key is withdrawn from the day book: 0, the number open, the bulk's cents; or number, 0, 0, and the book as lent.
pub fn bulk_book_withdraw<'a>(
    entries: &'a mut [Entry],
    numbers: &'a mut [u64; 2],
    key: &'a [u8; 60],
    answer: &'a mut [u64; 3],
)
    ensures { (answer.new ≡ told_call (kept (withdraw key.now) (lent_book entries.old numbers.old)))
        × (numbers.new ≡ numbers_of (kept (withdraw key.now) (lent_book entries.old numbers.old)).stored)
        × (entries.new ≡ (kept (withdraw key.now) (lent_book entries.old numbers.old)).stored.book.entries) }
{
    change(entries, numbers, Call::Withdraw(*key), answer);
}

// The first open entry with the key: 0, 1, its place; 0, 0, 0 where there is none; or 29, 0, 0. The stored total is not looked at.
pub fn bulk_book_find<'a>(
    entries: &'a [Entry],
    numbers: &'a [u64; 2],
    key: &'a [u8; 60],
    answer: &'a mut [u64; 3],
)
    ensures { answer.new ≡ told_found (searched key.now (lent_book entries.now numbers.now).book) }
{
    let lent = numbers_in(numbers);
    tell_found(daybook::find(entries, lent.opened, key), answer);
}

// The open total as it is stored: 0, the number open, the cents. It is no sum, and no entry is looked at.
pub fn bulk_book_total<'a>(numbers: &'a [u64; 2], answer: &'a mut [u64; 3])
    ensures { (l : List Entry) → answer.new ≡ told_book (shown (lent_book l numbers.now)) (get_or numbers.now 0 0) }
{
    let lent = numbers_in(numbers);
    *answer = [0, lent.opened as u64, book::show(lent)];
}

// Whether an entry and a withdrawal take the lent book for one: 0, 0, 0; or 29, 0, 0.
pub fn bulk_book_check<'a>(entries: &'a [Entry], numbers: &'a [u64; 2], answer: &'a mut [u64; 3])
    ensures { answer.new ≡ told_is (stands (lent_book entries.now numbers.now)) }
{
    let lent = numbers_in(numbers);
    tell_is(book::check(entries, lent.opened), lent.total, answer);
}

// Writes the ten words of a recording that was played back, or refused.
fn tell_played(p: Result<Played, Refused>, answer: &mut [u64; 10])
    ensures { (l : List Entry) (n : Numbers) → answer.new ≡ told_played (played_as l n p) }
{
    match p {
        Ok(p) => {
            let [a, b, c, d, e, f, g, h] = p.table;
            *answer = [0, p.records as u64, a, b, c, d, e, f, g, h];
        }
        Err(r) => *answer = [
            u64::from(r.why.number()),
            r.at as u64,
            0,
            0,
            0,
            0,
            0,
            0,
            0,
            0,
        ],
    }
}

// A recording is played back into the day book: 0, the number of records, the eight sums of the table; or number, place and eight times 0. The index is cleared.
pub fn bulk_play<'a>(
    recording: &'a [u8],
    buffer: &'a [u8],
    ends: &'a [u64],
    entries: &'a mut [Entry],
    numbers: &'a mut [u64; 2],
    index: &'a mut [u32],
    answer: &'a mut [u64; 10],
)
    ensures { (answer.new ≡ told_played (played_with index.old recording.now buffer.now ends.now (lent_book entries.old numbers.old)))
        × (numbers.new ≡ numbers_of (played_with index.old recording.now buffer.now ends.now (lent_book entries.old numbers.old)).stored)
        × (entries.new ≡ (played_with index.old recording.now buffer.now ends.now (lent_book entries.old numbers.old)).stored.book.entries)
        × (index.new ≡ cleared index.old) }
{
    let mut lent = numbers_in(numbers);
    let played = play::play(recording, buffer, ends, entries, &mut lent, index);
    *numbers = [lent.opened as u64, lent.total];
    tell_played(played, answer);
}
