// The C face's exported names: each public function of `bulk` once more, under its C name, with the same clauses.
// Each takes any bytes, and writes all three words of `answer`, `bulk_play` all ten, by the table of bulk's specs/Told.antt.
#![tactic(auto)]

ghost use Rattle.std.specs.Prelude.{◌≡◌, List, get_or};
ghost use Rattle.words.specs.Reference.{reference_given};
ghost use Rattle.words.specs.EndToEnd.{end_to_end_given};
ghost use Rattle.words.specs.Text.{text_given};
ghost use Rattle.calendar.specs.Date.{date_given};
ghost use Rattle.calendar.specs.Time.{time_given};
ghost use Rattle.money.specs.Count.{count_given};
ghost use Rattle.money.specs.Amount.{amount_given};
ghost use Rattle.accounts.specs.Iban.{iban_given};
ghost use Rattle.accounts.specs.Identifier.{identifier_given};
ghost use Rattle.accounts.specs.Bic.{bic_given, bicfi_given};
ghost use Rattle.bulk.specs.Told.{told, told_verdict, told_extent, PlainTold, told_book, told_call, told_is, told_found, told_played, lent_book, numbers_of};
ghost use Rattle.twice.specs.Twice.{cleared};
ghost use Rattle.keys.specs.Indexed.{keyed_with};
ghost use Rattle.book.specs.Calls.{bulk_of, enter, withdraw, searched};
ghost use Rattle.book.specs.Stored.{kept, shown, stands};
ghost use Rattle.reading.specs.Judged.{judged};
ghost use Rattle.judge.specs.Index.{judged_with, item_with};
ghost use Rattle.records.specs.Indexed.{recorded_with};
ghost use Rattle.play.specs.Play.{played_with};

use book::Entry;
use money::Range;
use words::Field;

// A message: 0, the count and the cents; or the number, the place and 0. The index is cleared; 25, 0, 0 where it has under 16,384 numbers, and it is as lent.
#[unsafe(no_mangle)]
pub extern "C" fn bulk_judge(message: &[u8], index: &mut [u32], answer: &mut [u64; 3])
    ensures { (answer.new ≡ told_verdict (judged_with index.old message.now)) × (index.new ≡ cleared index.old) }
{
    bulk::bulk_judge(message, index, answer);
}

// The same by the table-led engine.
#[unsafe(no_mangle)]
pub extern "C" fn bulk_judge_by_table(message: &[u8], index: &mut [u32], answer: &mut [u64; 3])
    ensures { (answer.new ≡ told_verdict (judged_with index.old message.now)) × (index.new ≡ cleared index.old) }
{
    bulk::bulk_judge_by_table(message, index, answer);
}

// `bulk_judge` without an index, by the plain search.
#[unsafe(no_mangle)]
pub extern "C" fn bulk_judge_plainly(message: &[u8], answer: &mut [u64; 3])
    ensures { answer.new ≡ told_verdict (judged message.now) }
{
    bulk::bulk_judge_plainly(message, answer);
}

// Item i of a message: 0, the place of its `<` and the place behind its `>`; or the number, the place and 0.
#[unsafe(no_mangle)]
pub extern "C" fn bulk_item(message: &[u8], i: u64, index: &mut [u32], answer: &mut [u64; 3])
    ensures { (answer.new ≡ told_extent (item_with index.old i message.now)) × (index.new ≡ cleared index.old) }
{
    bulk::bulk_item(message, i, index, answer);
}

// A message and a record area: the three words as of `bulk_judge`, or 17, 0, 0 where the area is too small;
// and a record for each item, or the area as lent.
#[unsafe(no_mangle)]
pub extern "C" fn bulk_records(
    message: &[u8],
    area: &mut [u8],
    index: &mut [u32],
    answer: &mut [u64; 3],
)
    ensures { (answer.new ≡ told_verdict (recorded_with index.old message.now area.old).verdict)
        × (area.new ≡ (recorded_with index.old message.now area.old).area) × (index.new ≡ cleared index.old) }
{
    bulk::bulk_records(message, area, index, answer);
}

// The same by the table-led engine.
#[unsafe(no_mangle)]
pub extern "C" fn bulk_records_by_table(
    message: &[u8],
    area: &mut [u8],
    index: &mut [u32],
    answer: &mut [u64; 3],
)
    ensures { (answer.new ≡ told_verdict (recorded_with index.old message.now area.old).verdict)
        × (area.new ≡ (recorded_with index.old message.now area.old).area) × (index.new ≡ cleared index.old) }
{
    bulk::bulk_records_by_table(message, area, index, answer);
}

// The plain form: 0, its length and 0, and the area begins with it; or the number, the place and 0, and the area is as lent.
#[unsafe(no_mangle)]
pub extern "C" fn bulk_plain(
    message: &[u8],
    area: &mut [u8],
    index: &mut [u32],
    answer: &mut [u64; 3],
)
    ensures { PlainTold index.old message.now area.old answer.new area.new × (index.new ≡ cleared index.old) }
{
    bulk::bulk_plain(message, area, index, answer);
}

// An IBAN.
#[unsafe(no_mangle)]
pub extern "C" fn bulk_iban(value: &[u8], answer: &mut [u64; 3])
    ensures { answer.new ≡ told (iban_given value.now) }
{
    bulk::bulk_iban(value, answer);
}

// A creditor identifier.
#[unsafe(no_mangle)]
pub extern "C" fn bulk_creditor_id(value: &[u8], answer: &mut [u64; 3])
    ensures { answer.new ≡ told (identifier_given value.now) }
{
    bulk::bulk_creditor_id(value, answer);
}

// A BIC.
#[unsafe(no_mangle)]
pub extern "C" fn bulk_bic(value: &[u8], answer: &mut [u64; 3])
    ensures { answer.new ≡ told (bic_given value.now) }
{
    bulk::bulk_bic(value, answer);
}

// A BIC in its wider form, as version 001.08 has it.
#[unsafe(no_mangle)]
pub extern "C" fn bulk_bicfi(value: &[u8], answer: &mut [u64; 3])
    ensures { answer.new ≡ told (bicfi_given value.now) }
{
    bulk::bulk_bicfi(value, answer);
}

// A date.
#[unsafe(no_mangle)]
pub extern "C" fn bulk_date(value: &[u8], answer: &mut [u64; 3])
    ensures { answer.new ≡ told (date_given value.now) }
{
    bulk::bulk_date(value, answer);
}

// A time.
#[unsafe(no_mangle)]
pub extern "C" fn bulk_time(value: &[u8], answer: &mut [u64; 3])
    ensures { answer.new ≡ told (time_given value.now) }
{
    bulk::bulk_time(value, answer);
}

// A reference.
#[unsafe(no_mangle)]
pub extern "C" fn bulk_reference(value: &[u8], answer: &mut [u64; 3])
    ensures { answer.new ≡ told (reference_given value.now) }
{
    bulk::bulk_reference(value, answer);
}

// An EndToEndId: 0, or 7.
#[unsafe(no_mangle)]
pub extern "C" fn bulk_end_to_end(value: &[u8], answer: &mut [u64; 3])
    ensures { answer.new ≡ told (end_to_end_given value.now) }
{
    bulk::bulk_end_to_end(value, answer);
}

// A text of at most 70.
#[unsafe(no_mangle)]
pub extern "C" fn bulk_text70(value: &[u8], answer: &mut [u64; 3])
    ensures { answer.new ≡ told (text_given Field.Nm value.now) }
{
    bulk::bulk_text70(value, answer);
}

// A text of at most 140.
#[unsafe(no_mangle)]
pub extern "C" fn bulk_text140(value: &[u8], answer: &mut [u64; 3])
    ensures { answer.new ≡ told (text_given Field.Ustrd value.now) }
{
    bulk::bulk_text140(value, answer);
}

// A count: the second word is its number.
#[unsafe(no_mangle)]
pub extern "C" fn bulk_count(value: &[u8], answer: &mut [u64; 3])
    ensures { answer.new ≡ told (count_given value.now) }
{
    bulk::bulk_count(value, answer);
}

// An item's amount: the second word is its cents.
#[unsafe(no_mangle)]
pub extern "C" fn bulk_item_amount(value: &[u8], answer: &mut [u64; 3])
    ensures { answer.new ≡ told (amount_given Range.Item value.now) }
{
    bulk::bulk_item_amount(value, answer);
}

// The header total: the second word is its cents.
#[unsafe(no_mangle)]
pub extern "C" fn bulk_header_amount(value: &[u8], answer: &mut [u64; 3])
    ensures { answer.new ≡ told (amount_given Range.Total value.now) }
{
    bulk::bulk_header_amount(value, answer);
}

// A message is entered into the day book: 0, the number open, the bulk's cents; or number, place, 0, and the book as lent. `numbers` holds the number open and the open total.
// The index is cleared.
#[unsafe(no_mangle)]
pub extern "C" fn bulk_book_enter<'a>(
    entries: &'a mut [Entry],
    numbers: &'a mut [u64; 2],
    message: &'a [u8],
    index: &'a mut [u32],
    answer: &'a mut [u64; 3],
)
    ensures { (answer.new ≡ told_call (kept (enter (bulk_of (keyed_with index.old message.now))) (lent_book entries.old numbers.old)))
        × (numbers.new ≡ numbers_of (kept (enter (bulk_of (keyed_with index.old message.now))) (lent_book entries.old numbers.old)).stored)
        × (entries.new ≡ (kept (enter (bulk_of (keyed_with index.old message.now))) (lent_book entries.old numbers.old)).stored.book.entries)
        × (index.new ≡ cleared index.old) }
{
    bulk::bulk_book_enter(entries, numbers, message, index, answer);
}

// A key is withdrawn from the day book: 0, the number open, the bulk's cents; or number, 0, 0, and the book as lent.
#[unsafe(no_mangle)]
pub extern "C" fn bulk_book_withdraw<'a>(
    entries: &'a mut [Entry],
    numbers: &'a mut [u64; 2],
    key: &'a [u8; 60],
    answer: &'a mut [u64; 3],
)
    ensures { (answer.new ≡ told_call (kept (withdraw key.now) (lent_book entries.old numbers.old)))
        × (numbers.new ≡ numbers_of (kept (withdraw key.now) (lent_book entries.old numbers.old)).stored)
        × (entries.new ≡ (kept (withdraw key.now) (lent_book entries.old numbers.old)).stored.book.entries) }
{
    bulk::bulk_book_withdraw(entries, numbers, key, answer);
}

// The first open entry with the key: 0, 1, its place; 0, 0, 0 where there is none; or 29, 0, 0. The stored total is not looked at.
#[unsafe(no_mangle)]
pub extern "C" fn bulk_book_find<'a>(
    entries: &'a [Entry],
    numbers: &'a [u64; 2],
    key: &'a [u8; 60],
    answer: &'a mut [u64; 3],
)
    ensures { answer.new ≡ told_found (searched key.now (lent_book entries.now numbers.now).book) }
{
    bulk::bulk_book_find(entries, numbers, key, answer);
}

// The open total as it is stored: 0, the number open, the cents. It is no sum, and no entry is looked at.
#[unsafe(no_mangle)]
pub extern "C" fn bulk_book_total<'a>(numbers: &'a [u64; 2], answer: &'a mut [u64; 3])
    ensures { (l : List Entry) → answer.new ≡ told_book (shown (lent_book l numbers.now)) (get_or numbers.now 0 0) }
{
    bulk::bulk_book_total(numbers, answer);
}

// Whether an entry and a withdrawal take the lent book for one: 0, 0, 0; or 29, 0, 0.
#[unsafe(no_mangle)]
pub extern "C" fn bulk_book_check<'a>(
    entries: &'a [Entry],
    numbers: &'a [u64; 2],
    answer: &'a mut [u64; 3],
)
    ensures { answer.new ≡ told_is (stands (lent_book entries.now numbers.now)) }
{
    bulk::bulk_book_check(entries, numbers, answer);
}

// A recording is played back into the day book: 0, the number of records, the eight sums of the table; or number, place and eight times 0. The index is cleared.
#[unsafe(no_mangle)]
pub extern "C" fn bulk_play<'a>(
    recording: &'a [u8],
    buffer: &'a [u8],
    ends: &'a [u64],
    entries: &'a mut [Entry],
    numbers: &'a mut [u64; 2],
    index: &'a mut [u32],
    answer: &'a mut [u64; 10],
)
    ensures { (answer.new ≡ told_played (played_with index.old recording.now buffer.now ends.now (lent_book entries.old numbers.old)))
        × (numbers.new ≡ numbers_of (played_with index.old recording.now buffer.now ends.now (lent_book entries.old numbers.old)).stored)
        × (entries.new ≡ (played_with index.old recording.now buffer.now ends.now (lent_book entries.old numbers.old)).stored.book.entries)
        × (index.new ≡ cleared index.old) }
{
    bulk::bulk_play(recording, buffer, ends, entries, numbers, index, answer);
}
