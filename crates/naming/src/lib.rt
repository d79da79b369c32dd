// What names a bulk, as the day book's request says it, and laws about that. Its code: how long a key is, and how its parts are filled.
#![tactic(auto)]

ghost use Rattle.std.specs.Prelude.{◌≡◌, length};
ghost use Rattle.postings.specs.Record.{padded};
ghost use Rattle.naming.specs.Key.{key_with};

// How many bytes a key has: service 4, MsgId 35, instructing BIC 11, settlement date 10.
pub const LENGTH: usize = 60;

// A value fills a part of a key, with spaces behind it.
pub fn put(part: &mut [u8], value: &[u8])
    ensures { part.new ≡ padded (length part.old) value.now }
{
    let n = value.len().min(part.len());
    part[..n].copy_from_slice(&value[..n]);
    part[n..].fill(b' ');
}

// The key of four values, each in its part.
pub fn key_with(service: &[u8], id: &[u8], bic: &[u8], date: &[u8]) -> [u8; LENGTH]
    ensures { result ≡ key_with service.now id.now bic.now date.now }
{
    let mut key = [b' '; LENGTH];
    put(&mut key[0..4], service);
    put(&mut key[4..39], id);
    put(&mut key[39..50], bic);
    put(&mut key[50..60], date);
    key
}
