// The day book asked where a key stands.
#![tactic(auto)]

ghost use Rattle.std.specs.Prelude.{◌≡◌, take};
ghost use Rattle.book.specs.Calls.{searched};
ghost use Rattle.book.specs.Code.{place_in, searched_as, book_of};

use answers::Refused;
use book::Entry;

// Where the first of the open entries that has the key stands. (The list as C lends it, and the number beside it, which may be over its length.)
pub fn search(entries: &[Entry], opened: usize, key: &[u8; naming::LENGTH]) -> Option<usize>
    ensures { result ≡ place_in key.now (take opened entries.now) }
{
    book::place_of(&entries[..opened.min(entries.len())], key)
}

// The first open entry with the key, or that there is none, in the list as C lends it; 29 where the lent book is none. The stored total is not looked at.
pub fn find(
    entries: &[Entry],
    opened: usize,
    key: &[u8; naming::LENGTH],
) -> Result<Option<usize>, Refused>
    ensures { searched_as result ≡ searched key.now (book_of entries.now opened) }
{
    book::check(entries, opened)?;
    Ok(search(entries, opened, key))
}
