// The key of a bulk, from one reading of the message; and the call that enters it into the day book.
#![tactic(auto)]

ghost use Rattle.std.specs.Prelude.{◌≡◌, Ok};
ghost use Rattle.twice.specs.Twice.{cleared};
ghost use Rattle.judge.specs.Survey.{from_one, surveyed_as};
ghost use Rattle.book.specs.Calls.{bulk_of, enter};
ghost use Rattle.book.specs.Code.{call_as};
ghost use Rattle.keys.specs.Indexed.{keyed_with};
ghost use Rattle.keys.specs.Engine.{keyed_as, service_text, key_from, keyed_from};

use answers::Refused;
use book::{Call, Entry};
use judge::{Accepted, Survey};
use profile::Field;

// What the judge says of an accepted message, and its key.
#[derive(Clone, Copy)]
pub struct Keyed {
    pub accepted: Accepted,
    pub key: [u8; naming::LENGTH],
}

// The service, by its place in its list.
fn service_of(service: Option<u64>) -> &'static [u8]
    ensures { result.now ≡ service_text (from_one service) }
{
    match service {
        Some(0) => b"CORE",
        Some(1) => b"B2B",
        _ => b"",
    }
}

// The key of an accepted bulk, from what the judge noted.
fn make_key(m: &[u8], s: &Survey) -> [u8; naming::LENGTH]
    ensures { result ≡ key_from m.now (from_one s.now.service) s.now.starts }
{
    let id = twice::value_at(m, s.start_of(Field::MsgId));
    let bic = twice::value_at(m, s.start_of(Field::InstgBic));
    let date = twice::value_at(m, s.start_of(Field::IntrBkSttlmDt));
    naming::key_with(service_of(s.service), id, bic, date)
}

impl Keyed {
    // What was found of an accepted message, and its key from what was noted.
    pub fn of(m: &[u8], s: &Survey) -> Keyed
        ensures { keyed_as (Ok result) ≡ keyed_from m.now (surveyed_as (Ok s.now)) }
    {
        Keyed {
            accepted: s.finding.accepted,
            key: make_key(m, s),
        }
    }
}

// What was found of a message, and its key from what was noted.
pub fn key_from(m: &[u8], s: Result<Survey, Refused>) -> Result<Keyed, Refused>
    ensures { keyed_as result ≡ keyed_from m.now (surveyed_as s) }
{
    Ok(Keyed::of(m, &s?))
}

// What the judge says of a message, and its key. The index is cleared.
pub fn key(m: &[u8], index: &mut [u32]) -> Result<Keyed, Refused>
    ensures { (keyed_as result ≡ keyed_with index.old m.now) × (index.new ≡ cleared index.old) }
{
    key_from(m, judge::read(m, index))
}

// The call that enters a message: its bulk, or the judge's own refusal. The index is cleared.
pub fn entering(message: &[u8], index: &mut [u32]) -> Call
    ensures { (call_as result ≡ enter (bulk_of (keyed_with index.old message.now))) × (index.new ≡ cleared index.old) }
{
    match key(message, index) {
        Ok(k) => {
            let key = k.key;
            let cents = k.accepted.cents;
            Call::Enter(Entry { key, cents })
        }
        Err(r) => Call::Unfit(r),
    }
}
