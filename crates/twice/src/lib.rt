// The earliest second of equal values among places of a message, found in two ways that answer the same:
// plainly, each against all before it, and quickly, by a lent index. No answer depends on how the values' bytes are mixed.
#![tactic(auto)]

ghost use Rattle.std.specs.Prelude.{◌≡◌, ◌-◌, ◌<◌, ◌≤◌, true, length, drop};
ghost use Rattle.text.specs.Truth.{every, at};
ghost use Rattle.text.specs.Quoted.{alike};
ghost use Rattle.tags.specs.Values.{in_value, value_at};
ghost use Rattle.twice.specs.Twice.{second, if_any, least_index, cleared};
ghost use Rattle.twice.specs.Engine.{mix_on, mix_bytes, strewn, mix as mixed, most, ends_at, passed, steps as steps_of, probe as probed, slots_from, AllFree, number_in, upper_of, entry_of, numbers_in, Told, AllTold};

// The numbers that an index has at least, all of which are slots of the quick way.
pub const LEAST_INDEX: usize = 16_384;
// How many places the quick way takes: fewer than there are slots.
pub const MOST: usize = 10_000;

// The slots, as entries count.
const SLOTS: u32 = LEAST_INDEX as u32;

// The message from a place on: nothing, where it ends before.
fn rest(m: &[u8], p: usize) -> &[u8]
    ensures { result.now ≡ drop p m.now }
{
    &m[m.len().min(p)..]
}

// The value at a place: nothing, where the message ends before.
pub fn value_at(m: &[u8], p: usize) -> &[u8]
    ensures { result.now ≡ value_at m.now p }
{
    let s = rest(m, p);
    let n = tags::upto(s);
    &s[..n]
}

// Whether a value of n bytes ends there: none or `<` follows.
fn ends_at(s: &[u8], n: usize) -> bool
    ensures { result ≡ ends_at s.now n }
{
    s.len() == n || (n < s.len() && s[n] == b'<')
}

// Whether the value at a place is v. Its length is looked at first.
fn holds(m: &[u8], p: u32, v: &[u8]) -> bool
    requires { every in_value v.now ≡ true }
    ensures { result ≡ alike (value_at m.now p) v.now }
{
    let s = rest(m, p as usize);
    ends_at(s, v.len()) && &s[..v.len()] == v
}

// The earliest second one: each value against all before it, and both loops are left at the first pair.
pub fn plainly(m: &[u8], places: &[u32]) -> Option<usize>
    ensures { result ≡ if_any (second m.now places.now) }
{
    let mut found = None;
    'search: for i in 0..places.len() {
        let p = places[i];
        if p == 0 {
            break;
        }
        let v = value_at(m, p as usize);
        for j in 0..i {
            if holds(m, places[j], v) {
                found = Some(p as usize);
                break 'search;
            }
        }
    }
    found
}

// A number mixed into the sum, which wraps at 32 bits.
fn mix_on(h: u32, n: u32) -> u32
    ensures { result ≡ mix_on h n }
{
    h.wrapping_add(h << 5).wrapping_add(n)
}

// Bytes mixed into the sum one by one.
fn mix_bytes(h: u32, s: &[u8]) -> u32
    ensures { result ≡ mix_bytes h s.now }
{
    let mut sum = h;
    for c in s {
        sum = mix_on(sum, u32::from(*c));
    }
    sum
}

// The sum onto itself, so that its upper bits come down and neighbours are strewn.
fn strew(h: u32) -> u32
    ensures { result ≡ strewn h }
{
    let low = h.wrapping_add(h >> 16);
    let high = low.wrapping_add(low << 11);
    high.wrapping_add(high >> 13)
}

// The mix of a value's bytes: four at a time, and then those left.
fn mix(v: &[u8]) -> u32
    ensures { result ≡ mixed v.now }
{
    let (fours, left) = v.as_chunks::<4>();
    let mut h = 0;
    for four in fours {
        h = mix_on(h, u32::from_le_bytes(*four));
    }
    strew(mix_bytes(h, left))
}

// The place of item n, counted from 1; 0 where there is none.
// (0 and no Option: the definition `passed` of specs/ goes on by the place 0.)
fn place_of(places: &[u32], n: u32) -> u32
    requires { 0 < n }
    ensures { result ≡ at places.now (n - 1) }
{
    places.get(n as usize - 1).copied().unwrap_or(0)
}

// The number in an entry of the index. An entry is a number, 0 where the slot is free, since the index is lent by C.
fn number_in(e: u32) -> u32
    ensures { result ≡ number_in e }
{
    e % SLOTS
}

// The upper bits of a mix, which stand above the number.
fn upper_of(h: u32) -> u32
    ensures { result ≡ upper_of h }
{
    h / SLOTS
}

// The entry of item n, whose value has the mix h.
fn entry(n: u32, h: u32) -> u32
    requires { n < least_index }
    ensures { result ≡ entry_of n h }
{
    h - h % SLOTS + n
}

// Whether the search for v, whose mix is h, goes on past an entry. Most others are told by the mix alone.
fn passes(m: &[u8], places: &[u32], v: &[u8], h: u32, e: u32) -> bool
    requires { (every in_value v.now ≡ true) × (h ≡ mixed v.now) × Told m.now places.now e }
    ensures { result ≡ passed m.now places.now v.now (number_in e) }
{
    e != 0 && (upper_of(e) != upper_of(h) || !holds(m, place_of(places, number_in(e)), v))
}

// How many steps the search for v takes from where h, its mix, points.
fn steps(m: &[u8], places: &[u32], index: &[u32], v: &[u8], h: u32) -> usize
    requires { (every in_value v.now ≡ true) × (least_index ≤ length index.now) × (h ≡ mixed v.now) × AllTold m.now places.now index.now }
    ensures { (result ≡ steps_of m.now places.now (numbers_in index.now) v.now h) × (result ≤ least_index) }
{
    for step in 0..LEAST_INDEX {
        if !passes(m, places, v, h, index[(h as usize + step) % LEAST_INDEX]) {
            return step;
        }
    }
    LEAST_INDEX
}

// Where the search for a value stops, and the value's mix.
#[derive(Clone, Copy)]
struct Stop {
    slot: usize,
    mix: u32,
}

// The search for the value at a place.
fn probe(m: &[u8], places: &[u32], index: &[u32], p: u32) -> Stop
    requires { (least_index ≤ length index.now) × AllTold m.now places.now index.now }
    ensures { (result.slot ≡ probed mixed m.now places.now (numbers_in index.now) (value_at m.now p))
        × (result.slot < least_index) × (result.mix ≡ mixed (value_at m.now p)) }
{
    let v = value_at(m, p as usize);
    let h = mix(v);
    Stop {
        slot: (h as usize + steps(m, places, index, v, h)) % LEAST_INDEX,
        mix: h,
    }
}

// The byte at a place; 0 where the message ends before. (A number and no Option, since such bytes are or-ed without a branch.)
fn byte_at(m: &[u8], p: u32) -> u8 {
    m.get(p as usize).copied().unwrap_or(0)
}

// The bytes at some places, or-ed.
fn bytes_in_one(m: &[u8], places: &[u32]) -> u8 {
    let mut r = 0;
    for p in places {
        r |= byte_at(m, *p);
    }
    r
}

// Whether the next sixteen values all begin with a byte 0, which none does that was read. Asked before each sixteen: so the memory brings them
// together, and not one after the other.
fn all_dark(m: &[u8], places: &[u32]) -> bool {
    16 <= places.len() && bytes_in_one(m, &places[..16]) == 0
}

// The search by slots, over an index whose slots are all free.
fn by_slots(m: &[u8], places: &[u32], index: &mut [u32]) -> Option<usize>
    requires { (least_index ≤ length index.old) × (length places.now ≤ most) × AllFree index.old }
    ensures { result ≡ if_any (slots_from mixed m.now places.now 0 (numbers_in index.old) places.now) }
{
    for (i, p) in places.iter().enumerate() {
        if *p == 0 {
            return None;
        }
        if i % 16 == 0 && all_dark(m, &places[i..]) {
            return plainly(m, places);
        }
        let Stop { slot, mix } = probe(m, places, index, *p);
        if index[slot] != 0 {
            return Some(*p as usize);
        }
        index[slot] = entry(i as u32 + 1, mix);
    }
    None
}

// The search by slots where they have room for all items, else the plain one.
fn sought(m: &[u8], places: &[u32], index: &mut [u32]) -> Option<usize>
    requires { (least_index ≤ length index.old) × AllFree index.old }
    ensures { result ≡ if_any (second m.now places.now) }
{
    if MOST < places.len() {
        return plainly(m, places);
    }
    by_slots(m, places, index)
}

// The same earliest second one, by the index: whatever it held, it is cleared. Where it has too few numbers, it is left alone, and the plain way answers.
pub fn quickly(m: &[u8], places: &[u32], index: &mut [u32]) -> Option<usize>
    ensures { (result ≡ if_any (second m.now places.now)) × (index.new ≡ cleared index.old) }
{
    if index.len() < LEAST_INDEX {
        return plainly(m, places);
    }
    index[..LEAST_INDEX].fill(0);
    let found = sought(m, places, index);
    index.fill(0);
    found
}
