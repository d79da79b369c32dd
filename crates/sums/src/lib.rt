// What a bulk adds to a table of cents, by service and sequence type; together with its key, from one reading of the message.
#![tactic(auto)]

ghost use Rattle.std.specs.Prelude.{◌≡◌, ◌+◌, ◌≤◌, Ok};
ghost use Rattle.items.specs.Sums.{most_sum};
ghost use Rattle.twice.specs.Twice.{cleared};
ghost use Rattle.judge.specs.Survey.{surveyed_as, survey};
ghost use Rattle.keys.specs.Indexed.{keyed_with};
ghost use Rattle.sums.specs.Sums.{sums_of, lot_of, lot_with};
ghost use Rattle.sums.specs.Engine.{type_at, sum_at, added, keyed_in, lot_in};

use answers::Refused;
use codes::Element;
use engines::Engine;
use judge::Survey;
use keys::Keyed;
use profile::Field;

// What a bulk adds to the table of the open cents: its service, by its place in its list from 1 on, and its cents by sequence type.
#[derive(Clone, Copy)]
pub struct Lot {
    // A number, since definitions keep their meaning: `lot_of`, and play's `with_lot`, count a service from 1, and 0 is none.
    pub service: u64,
    pub sums: [u64; 4],
}

// What the judge says of an accepted message, its key, and what it adds to the table.
#[derive(Clone, Copy)]
pub struct Weighed {
    pub keyed: Keyed,
    pub lot: Lot,
}

// The place in its list of the sequence type that stands at a place of the message, if one stands there.
fn type_at(m: &[u8], start: usize) -> Option<usize>
    ensures { result ≡ type_at m.now start }
{
    match codes::code(Element::SeqTp, records::held(m, start)) {
        Ok(i) => Some(i as usize),
        Err(_) => None,
    }
}

// The sums, with an item's cents added to that of its type.
fn add(mut sums: [u64; 4], place: Option<usize>, cents: u64) -> [u64; 4]
    requires { sum_at place sums + cents ≤ most_sum }
    ensures { result ≡ added place cents sums }
{
    if let Some(i) = place {
        // Not by `get_mut`: what it lent is over with nothing known of the elements.
        if i < 4 {
            sums[i] += cents;
        }
    }
    sums
}

// The second walk over the items: each is read again, and its cents go to the sum of its type, which stands in it or above.
fn sum_up(m: &[u8], s: &Survey) -> [u64; 4]
    requires { surveyed_as (Ok s.now) ≡ survey m.now }
    ensures { result ≡ sums_of m.now }
{
    let version = judge::version_of(m);
    let mut sums = [0; 4];
    let mut at = s.finding.first;
    for _ in 0..s.finding.accepted.count {
        let Ok(st) = engines::item(Engine::Straight, m, at, version) else {
            return sums;
        };
        let place = records::wherever(st.notes.starts, s.starts, Field::SeqTp);
        // A call's array is bound first: laid into `sums` itself, the function gets no generated proof.
        let more = add(sums, type_at(m, place), st.notes.cents);
        sums = more;
        at = st.at as usize;
    }
    sums
}

// What an accepted message adds to the table, by what the judge noted of it.
fn make_lot(m: &[u8], s: &Survey) -> Lot
    requires { surveyed_as (Ok s.now) ≡ survey m.now }
    ensures { result ≡ lot_of m.now }
{
    let sums = sum_up(m, s);
    // No Option is handed on, since `lot_of` keeps its meaning: it says 0 of none.
    let service = match s.service {
        Some(i) => i + 1,
        None => 0,
    };
    Lot { service, sums }
}

// What the judge says of a message, its key, and what it adds to the table, from one reading. The index is cleared.
pub fn weigh(m: &[u8], index: &mut [u32]) -> Result<Weighed, Refused>
    ensures { (keyed_in result ≡ keyed_with index.old m.now)
        × (lot_in result ≡ lot_with index.old m.now) × (index.new ≡ cleared index.old) }
{
    let s = judge::read(m, index)?;
    let keyed = Keyed::of(m, &s);
    let lot = make_lot(m, &s);
    Ok(Weighed { keyed, lot })
}
