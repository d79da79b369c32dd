// The posting records of an accepted message, written into a lent area.
#![tactic(auto)]

ghost use Rattle.std.specs.Prelude.{◌≡◌, ◌++◌, ◌+◌, ◌*◌, ◌≤◌, eqb, ltb, length, take, drop};
ghost use Rattle.text.specs.Truth.{either};
ghost use Rattle.reading.specs.Items.{the_header, the_items};
ghost use Rattle.words.specs.Collapsed.{collapsed};
ghost use Rattle.postings.specs.Record.{record_length, padded, digits};
ghost use Rattle.postings.specs.Area.{records_for};
ghost use Rattle.twice.specs.Twice.{cleared};
ghost use Rattle.items.specs.Places.{held_at};
ghost use Rattle.judge.specs.Verdict.{meant};
ghost use Rattle.records.specs.Indexed.{recorded_with};
ghost use Rattle.engine.specs.Several.{row_length};
ghost use Rattle.records.specs.Engine.{start_of, own_or, record_of, records_of, laid, all_laid, to_cents, to_instr_id, to_end, Room};

use answers::Refusal;
use engines::Engine;
use judge::Verdict;
use profile::Field;

// How many bytes a record has.
pub const LENGTH: usize = 320;

// How many items are read in one call, at most.
const MOST: usize = 128;

// A value's bytes, laid into the record from an offset on.
#[inline(always)]
fn lay_bytes(rec: &mut [u8; LENGTH], at: usize, v: &[u8])
    requires { at + length v.now ≤ record_length }
    ensures { rec.new ≡ laid at v.now rec.old }
{
    text::lay(&mut rec[at..at + v.len()], v)
}

// A value of N to 2 * N bytes: its first N, and its last. A copy of so many bytes as the compiler knows is quicker.
fn lay_ends<const N: usize>(rec: &mut [u8; LENGTH], at: usize, v: &[u8])
    requires { (at + length v.now ≤ record_length) × (N ≤ length v.now) × (length v.now ≤ N + N) }
    ensures { rec.new ≡ laid at v.now rec.old }
{
    let last = v.len() - N;
    lay_bytes(rec, at, &v[..N]);
    lay_bytes(rec, at + last, &v[last..last + N])
}

// A value's bytes, laid into the record from an offset on.
fn lay(rec: &mut [u8; LENGTH], at: usize, v: &[u8])
    requires { at + length v.now ≤ record_length }
    ensures { rec.new ≡ laid at v.now rec.old }
{
    match v.len() {
        4..=8 => lay_ends::<4>(rec, at, v),
        9..=16 => lay_ends::<8>(rec, at, v),
        17..=32 => lay_ends::<16>(rec, at, v),
        _ => lay_bytes(rec, at, v),
    }
}

// Where the last value of a field begins.
fn start_of(starts: [u32; profile::FIELDS], f: Field) -> usize
    ensures { result ≡ start_of starts f }
{
    starts[profile::number_of(f)] as usize
}

// The same of an item's row.
fn row_start(row: &[u64; engine::ROW], f: Field) -> usize
    ensures { result ≡ start_of row.now f }
{
    row[profile::number_of(f)] as usize
}

// An item's own place of a field, or else the place above it.
fn or_above(own: usize, above: [u32; profile::FIELDS], f: Field) -> usize
    ensures { result ≡ own_or (start_of above f) own }
{
    if own == 0 { start_of(above, f) } else { own }
}

// Where a field that may stand above an item is to be had: the item's own place, or else the place above.
pub fn wherever(starts: [u32; profile::FIELDS], above: [u32; profile::FIELDS], f: Field) -> usize
    ensures { result ≡ own_or (start_of above f) (start_of starts f) }
{
    or_above(start_of(starts, f), above, f)
}

// Whether no value is to be had at a place: it is 0, or behind the message.
pub fn none_at(m: &[u8], start: usize) -> bool
    ensures { result ≡ either (eqb start 0) (ltb (length m.now) start) }
{
    start == 0 || m.len() < start
}

// The value at a place, up to the next `<`: an empty one where none is to be had.
pub fn held(m: &[u8], start: usize) -> &[u8]
    ensures { result.now ≡ held_at m.now start }
{
    if none_at(m, start) {
        return &[];
    }
    twice::value_at(m, start)
}

// The value at a place: at most so many bytes of it, laid at an offset.
fn put_at(rec: &mut [u8; LENGTH], at: usize, width: usize, m: &[u8], start: usize)
    requires { at + width ≤ record_length }
    ensures { rec.new ≡ laid at (take width (held_at m.now start)) rec.old }
{
    let v = held(m, start);
    lay(rec, at, &v[..v.len().min(width)])
}

// The value of a field, where its start was noted, laid at an offset.
fn put(
    rec: &mut [u8; LENGTH],
    at: usize,
    width: usize,
    m: &[u8],
    row: &[u64; engine::ROW],
    f: Field,
)
    requires { at + width ≤ record_length }
    ensures { rec.new ≡ laid at (take width (held_at m.now (start_of row.now f))) rec.old }
{
    put_at(rec, at, width, m, row_start(row, f))
}

// EndToEndId, from where its start was noted, collapsed, laid at its offset.
fn put_collapsed(rec: &mut [u8; LENGTH], m: &[u8], start: usize)
    ensures { rec.new ≡ laid 35 (padded 35 (collapsed (held_at m.now start))) rec.old }
{
    let mut field = [32; 35];
    words::collapse(held(m, start), &mut field);
    lay(rec, 35, &field)
}

// The same; a reference has no white space, and is laid as it stands.
fn put_end_to_end(rec: &mut [u8; LENGTH], m: &[u8], start: usize)
    ensures { rec.new ≡ laid 35 (padded 35 (collapsed (held_at m.now start))) rec.old }
{
    match swift_values::reference(m, start, 0) {
        None => put_collapsed(rec, m, start),
        Some(end) => {
            let field = [32; 35];
            lay(rec, 35, &field);
            lay(rec, 35, &m[start..end])
        }
    }
}

// The cents as 11 digits, laid at their offset.
fn put_cents(rec: &mut [u8; LENGTH], cents: u64)
    ensures { rec.new ≡ laid 184 (digits 11 cents) rec.old }
{
    let mut left = cents;
    for i in (0..11).rev() {
        rec[184 + i] = b'0' + (left % 10) as u8;
        left /= 10;
    }
}

// The fields up to the cents, each laid at its offset.
fn put_to_cents(rec: &mut [u8; LENGTH], m: &[u8], row: &[u64; engine::ROW])
    ensures { rec.new ≡ all_laid (to_cents m.now row.now) rec.old }
{
    put(rec, 0, 35, m, row, Field::TxId);
    put_end_to_end(rec, m, row_start(row, Field::EndToEndId));
    put(rec, 70, 35, m, row, Field::MndtId);
    put(rec, 105, 34, m, row, Field::DbtrIban);
    put(rec, 139, 34, m, row, Field::CdtrIban);
    put(rec, 173, 11, m, row, Field::DbtrBic);
    put_cents(rec, row[profile::FIELDS])
}

// Those behind the cents up to InstrId, likewise; SeqTp from its place.
fn put_to_instr_id(rec: &mut [u8; LENGTH], m: &[u8], row: &[u64; engine::ROW], sequence: usize)
    ensures { rec.new ≡ all_laid (to_instr_id m.now row.now sequence) rec.old }
{
    put(rec, 195, 10, m, row, Field::ReqdColltnDt);
    put_at(rec, 205, 4, m, sequence);
    put(rec, 209, 35, m, row, Field::CdtrId);
    put(rec, 244, 11, m, row, Field::CdtrBic);
    put(rec, 255, 35, m, row, Field::InstrId)
}

// The last ones, likewise, and the byte that ends the record; LclInstrm from its place.
fn put_to_end(rec: &mut [u8; LENGTH], m: &[u8], row: &[u64; engine::ROW], instrument: usize)
    ensures { rec.new ≡ all_laid (to_end m.now row.now instrument) rec.old }
{
    put_at(rec, 290, 4, m, instrument);
    put(rec, 294, 10, m, row, Field::DtOfSgntr);
    rec[319] = b'\n';
}

// The record of an item, from its row and what was noted above it: all spaces, then each field at its offset; and written into its part of the area.
fn make_record(part: &mut [u8], m: &[u8], row: &[u64; engine::ROW], above: [u32; profile::FIELDS])
    requires { length part.old ≡ record_length }
    ensures { part.new ≡ record_of m.now row.now above }
{
    let sequence = or_above(row_start(row, Field::SeqTp), above, Field::SeqTp);
    let instrument = or_above(row_start(row, Field::LclInstrm), above, Field::LclInstrm);
    let mut rec = [32; LENGTH];
    put_to_cents(&mut rec, m, row);
    put_to_instr_id(&mut rec, m, row, sequence);
    put_to_end(&mut rec, m, row, instrument);
    part.copy_from_slice(&rec)
}

// The records of so many rows, one behind the other.
fn lay_rows(m: &[u8], flat: &[u64], n: usize, above: [u32; profile::FIELDS], area: &mut [u8])
    requires { (row_length * n ≤ length flat.now) × (length area.old ≡ record_length * n) }
    ensures { area.new ≡ records_of m.now above n flat.now }
{
    let (rows, _) = flat.as_chunks::<{ engine::ROW }>();

    // The area by places: document 01 names this form, a part of it that is lent on to what writes one record.
    for i in 0..n {
        let from = LENGTH * i;
        make_record(&mut area[from..from + LENGTH], m, &rows[i], above);
    }
}

// The second walk over the items: they are read again, so many in a call, and the records of their rows go to their part of the area.
fn fill(
    e: Engine,
    m: &[u8],
    count: usize,
    first: usize,
    above: [u32; profile::FIELDS],
    area: &mut [u8],
)
    requires { Room m.now count first above area.old }
    ensures { area.new ≡ records_for (the_header m.now) (the_items m.now) ++ drop (record_length * count) area.old }
{
    let version = judge::version_of(m);
    let mut rows = [0; engine::ROW * MOST];
    let mut i = 0;
    let mut at = first;

    // Not `for part in area.chunks_mut(..)`: once its loan is over, a proof knows the slice's length alone.
    while i < count {
        let n = (count - i).min(MOST);
        let wide = engine::ROW * n;
        let r = engines::items(e, m, at, version, &mut rows[..wide]);
        let from = LENGTH * i;
        let to = from + LENGTH * n;
        lay_rows(m, &rows, n, above, &mut area[from..to]);
        at = r.at;
        i += n;
    }
}

// The verdict on a message, read by an engine; where it is accepted and the area has room, a record for each of its items, in order. The index is cleared.
fn records_by(e: Engine, m: &[u8], area: &mut [u8], index: &mut [u32]) -> Verdict
    ensures { (meant result ≡ (recorded_with index.old m.now area.old).verdict)
        × (area.new ≡ (recorded_with index.old m.now area.old).area) × (index.new ≡ cleared index.old) }
{
    let s = judge::read_by(e, m, index)?;
    let above = s.starts;
    let count = s.finding.accepted.count;
    if ((area.len() / LENGTH) as u64) < count {
        return Err(Refusal::ShortArea.at(0));
    }
    fill(e, m, count as usize, s.finding.first, above, area);
    Ok(s.finding.accepted)
}

// The same by the straight engine.
pub fn records(m: &[u8], area: &mut [u8], index: &mut [u32]) -> Verdict
    ensures { (meant result ≡ (recorded_with index.old m.now area.old).verdict)
        × (area.new ≡ (recorded_with index.old m.now area.old).area) × (index.new ≡ cleared index.old) }
{
    records_by(Engine::Straight, m, area, index)
}

// The same by the table-led engine.
pub fn records_by_table(m: &[u8], area: &mut [u8], index: &mut [u32]) -> Verdict
    ensures { (meant result ≡ (recorded_with index.old m.now area.old).verdict)
        × (area.new ≡ (recorded_with index.old m.now area.old).area) × (index.new ≡ cleared index.old) }
{
    records_by(Engine::Table, m, area, index)
}
