// Many bytes at once: words that are the same at two places, and runs of tags as they are spelled.
// Here bytes are compared by words, by loops that count and leave early. The slices' own `starts_with` and `==`, and a `for` over the tags, are plainer and were
// tried: items that are each laid out in another way then took 1.3 times plain Rust's time, where they take its own, and usual ones a tenth more. A line names that below.
ghost use Rattle.std.specs.Prelude.{◌≡◌, ◌+◌, ◌*◌, ◌<◌, ◌≤◌, true, length, IfSome};
ghost use Rattle.text.specs.Truth.{part, every};
ghost use Rattle.tags.specs.Tags.{white};
ghost use Rattle.straight.specs.Words.{half_at, word_at, Four, Eight, Match};
ghost use Rattle.straight.specs.Due.{Past};
ghost use Rattle.straight.specs.Spelled.{Spelled, Onto};
ghost use Rattle.straight.specs.Runs.{Texts};
ghost use Rattle.straight.specs.Exact.{ItemBegins};

// A byte as a number of 64 bits. (Not `u64::from`: a word's sum needs the bound.)
fn wide(x: u8) -> u64
    ensures { (result ≡ x) × (result < 256) }
{
    x as u64
}

// A byte as a length. (As `wide`.)
fn size(x: u8) -> usize
    ensures { (result ≡ x) × (result < 256) }
{
    x as usize
}

// Eight bytes as a number, the lowest first: one load. (By words, for the time.)
fn word(s: &[u8], p: usize) -> u64
    requires { p + 8 ≤ length s.now }
    ensures { (result ≡ word_at s.now p) × Eight s.now p }
{
    wide(s[p])
        + wide(s[p + 1]) * 256
        + wide(s[p + 2]) * 65536
        + wide(s[p + 3]) * 16777216
        + wide(s[p + 4]) * 4294967296
        + wide(s[p + 5]) * 1099511627776
        + wide(s[p + 6]) * 281474976710656
        + wide(s[p + 7]) * 72057594037927936
}

// Four bytes as a number.
fn half(s: &[u8], p: usize) -> u64
    requires { p + 4 ≤ length s.now }
    ensures { (result ≡ half_at s.now p) × Four s.now p }
{
    wide(s[p]) + wide(s[p + 1]) * 256 + wide(s[p + 2]) * 65536 + wide(s[p + 3]) * 16777216
}

// Two words that may overlap: the n bytes at a place are those of t from k on. (By words, for the time.)
fn same_mid(m: &[u8], at: usize, t: &[u8], k: usize, n: usize) -> bool
    requires { (at + n ≤ length m.now) × (k + n ≤ length t.now) × (8 ≤ n) × (n ≤ 16) }
    ensures { result ≡ true → Match m.now at t.now k n }
{
    let z = n - 8;
    if word(m, at) != word(t, k) {
        return false;
    }
    word(m, at + z) == word(t, k + z)
}

// The same for four to eight bytes, by halves of a word. (By words, for the time: one over the width would need its words as a closure.)
fn same_short(m: &[u8], at: usize, t: &[u8], k: usize, n: usize) -> bool
    requires { (at + n ≤ length m.now) × (k + n ≤ length t.now) × (4 ≤ n) × (n ≤ 8) }
    ensures { result ≡ true → Match m.now at t.now k n }
{
    let z = n - 4;
    if half(m, at) != half(t, k) {
        return false;
    }
    half(m, at + z) == half(t, k + z)
}

// The same for sixteen bytes and more: sixteen a turn, the last sixteen overlap. (By words, for the time.)
fn same_long(m: &[u8], at: usize, t: &[u8], k: usize, n: usize) -> bool
    requires { (at + n ≤ length m.now) × (k + n ≤ length t.now) × (16 ≤ n) }
    ensures { result ≡ true → Match m.now at t.now k n }
{
    let z = n - 16;
    let mut i = 0;
    while i < z {
        if !same_mid(m, at + i, t, k + i, 16) {
            return false;
        }
        i += 16;
    }
    same_mid(m, at + z, t, k + z, 16)
}

// The n bytes at a place are those of t from k on; for four bytes and more.
fn same(m: &[u8], at: usize, t: &[u8], k: usize, n: usize) -> bool
    requires { (at + n ≤ length m.now) × (k + n ≤ length t.now) × (4 ≤ n) }
    ensures { result ≡ true → Match m.now at t.now k n }
{
    if n < 8 {
        return same_short(m, at, t, k, n);
    }
    if n < 16 {
        return same_mid(m, at, t, k, n);
    }
    same_long(m, at, t, k, n)
}

// The n bytes of t from k on stand at a place: the place behind them.
fn here(m: &[u8], at: usize, t: &[u8], k: usize, n: usize) -> Option<usize>
    requires { (at ≤ length m.now) × (k + n ≤ length t.now) × (4 ≤ n) }
    ensures { IfSome result (Past m.now at (part k n t.now)) }
{
    if at != 0 && n <= m.len() - at && same(m, at, t, k, n) {
        return Some(at + n);
    }
    None
}

// ---- runs of tags

// The texts of the runs, 96 bytes for each: its text, padded to 80, how long it is, and how long each of its tags.
pub fn texts() -> [u8; 2784]
    ensures { Texts result }
{
    *b"\
        <PmtId><InstrId>                                                                \x10\x07\x09\0\0\0\0\0\0\0\0\0\0\0\0\0\
        <PmtId><EndToEndId>                                                             \x13\x07\x0c\0\0\0\0\0\0\0\0\0\0\0\0\0\
        </InstrId><EndToEndId>                                                          \x16\x0a\x0c\0\0\0\0\0\0\0\0\0\0\0\0\0\
        </EndToEndId><TxId>                                                             \x13\x0d\x06\0\0\0\0\0\0\0\0\0\0\0\0\0\
        </TxId></PmtId><PmtTpInf><SvcLvl><Cd>                                           \x25\x07\x08\x0a\x08\x04\0\0\0\0\0\0\0\0\0\0\
        </TxId></PmtId><IntrBkSttlmAmt Ccy=\"EUR\">                                       \x29\x07\x08\x1a\0\0\0\0\0\0\0\0\0\0\0\0\
        </Cd></SvcLvl><LclInstrm><Cd>                                                   \x1d\x05\x09\x0b\x04\0\0\0\0\0\0\0\0\0\0\0\
        </Cd></LclInstrm><SeqTp>                                                        \x18\x05\x0c\x07\0\0\0\0\0\0\0\0\0\0\0\0\
        </SeqTp></PmtTpInf><IntrBkSttlmAmt Ccy=\"EUR\">                                   \x2d\x08\x0b\x1a\0\0\0\0\0\0\0\0\0\0\0\0\
        </IntrBkSttlmAmt><ChrgBr>                                                       \x19\x11\x08\0\0\0\0\0\0\0\0\0\0\0\0\0\
        </ChrgBr><ReqdColltnDt>                                                         \x17\x09\x0e\0\0\0\0\0\0\0\0\0\0\0\0\0\
        </ReqdColltnDt><DrctDbtTx><MndtRltdInf><MndtId>                                 \x2f\x0f\x0b\x0d\x08\0\0\0\0\0\0\0\0\0\0\0\
        </MndtId><DtOfSgntr>                                                            \x14\x09\x0b\0\0\0\0\0\0\0\0\0\0\0\0\0\
        </DtOfSgntr></MndtRltdInf><CdtrSchmeId><Id><PrvtId><Othr><Id>                   \x3d\x0c\x0e\x0d\x04\x08\x06\x04\0\0\0\0\0\0\0\0\
        </Id><SchmeNm><Prtry>                                                           \x15\x05\x09\x07\0\0\0\0\0\0\0\0\0\0\0\0\
        </Prtry></SchmeNm></Othr></PrvtId></Id></CdtrSchmeId></DrctDbtTx><Cdtr><Nm>     \x4b\x08\x0a\x07\x09\x05\x0e\x0c\x06\x04\0\0\0\0\0\0\
        </Nm></Cdtr><CdtrAcct><Id><IBAN>                                                \x20\x05\x07\x0a\x04\x06\0\0\0\0\0\0\0\0\0\0\
        </IBAN></Id></CdtrAcct><CdtrAgt><FinInstnId><BIC>                               \x31\x07\x05\x0b\x09\x0c\x05\0\0\0\0\0\0\0\0\0\
        </IBAN></Id></CdtrAcct><CdtrAgt><FinInstnId><BICFI>                             \x33\x07\x05\x0b\x09\x0c\x07\0\0\0\0\0\0\0\0\0\
        </BIC></FinInstnId></CdtrAgt><Dbtr><Nm>                                         \x27\x06\x0d\x0a\x06\x04\0\0\0\0\0\0\0\0\0\0\
        </BICFI></FinInstnId></CdtrAgt><Dbtr><Nm>                                       \x29\x08\x0d\x0a\x06\x04\0\0\0\0\0\0\0\0\0\0\
        </Nm></Dbtr><DbtrAcct><Id><IBAN>                                                \x20\x05\x07\x0a\x04\x06\0\0\0\0\0\0\0\0\0\0\
        </IBAN></Id></DbtrAcct><DbtrAgt><FinInstnId><BIC>                               \x31\x07\x05\x0b\x09\x0c\x05\0\0\0\0\0\0\0\0\0\
        </IBAN></Id></DbtrAcct><DbtrAgt><FinInstnId><BICFI>                             \x33\x07\x05\x0b\x09\x0c\x07\0\0\0\0\0\0\0\0\0\
        </BIC></FinInstnId></DbtrAgt><RmtInf><Ustrd>                                    \x2c\x06\x0d\x0a\x08\x07\0\0\0\0\0\0\0\0\0\0\
        </BICFI></FinInstnId></DbtrAgt><RmtInf><Ustrd>                                  \x2e\x08\x0d\x0a\x08\x07\0\0\0\0\0\0\0\0\0\0\
        </BIC></FinInstnId></DbtrAgt></DrctDbtTxInf>                                    \x2c\x06\x0d\x0a\x0f\0\0\0\0\0\0\0\0\0\0\0\
        </BICFI></FinInstnId></DbtrAgt></DrctDbtTxInf>                                  \x2e\x08\x0d\x0a\x0f\0\0\0\0\0\0\0\0\0\0\0\
        </Ustrd></RmtInf></DrctDbtTxInf>                                                \x20\x08\x09\x0f\0\0\0\0\0\0\0\0\0\0\0\0"
}

// A byte stands at a place: the place behind it.
fn byte_at(m: &[u8], p: usize, c: u8) -> Option<usize>
    requires { p ≤ length m.now }
    ensures { IfSome result (Onto m.now p c) }
{
    if p != 0 && p < m.len() && m[p] == c {
        return Some(p + 1);
    }
    None
}

// The next byte of a text stands at a place; `<` may stand after white space.
fn next_byte(m: &[u8], p: usize, c: u8) -> Option<usize>
    requires { p ≤ length m.now }
    ensures { IfSome result (Onto m.now p c) }
{
    if p == 0 {
        return None;
    }
    if c != b'<' {
        return byte_at(m, p, c);
    }
    let w = tags::spaces(&m[p..]);
    byte_at(m, p + w, b'<')
}

// A text as it is spelled at a place, byte by byte: the place behind it.
fn by_bytes(m: &[u8], at: usize, text: &[u8]) -> Option<usize>
    requires { (at ≤ length m.now) × (0 < length text.now) }
    ensures { IfSome result (Spelled m.now at text.now) }
{
    if at == 0 {
        return None;
    }
    let mut p = at;
    for i in 0..text.len() {
        p = next_byte(m, p, text[i])?;
    }
    Some(p)
}

// How many bytes of eight at two places are alike, from the first on: the lowest digit in which the words differ tells. (By words, for the time.)
fn alike(m: &[u8], p: usize, t: &[u8], i: usize) -> usize
    requires { (p + 8 ≤ length m.now) × (i + 8 ≤ length t.now) }
    ensures { (result ≤ 8) × Match m.now p t.now i result }
{
    let d = std::num::wrapping_sub_u64(word(m, p), word(t, i));
    (u64::trailing_zeros(d) / 8) as usize
}

// The same of n bytes, eight to sixteen: two words that may overlap.
fn alike_to(m: &[u8], p: usize, t: &[u8], i: usize, n: usize) -> usize
    requires { (p + n ≤ length m.now) × (i + n ≤ length t.now) × (8 ≤ n) × (n ≤ 16) }
    ensures { (result ≤ n) × Match m.now p t.now i result }
{
    let a = alike(m, p, t, i);
    if a < 8 {
        return a;
    }
    let z = n - 8;
    z + alike(m, p + z, t, i + z)
}

// How many of the bytes of a text that are left are its next tag, by the lengths of its tags. (Where they say something else, the text is read as well, only more slowly.)
fn tag_length(lengths: &[u8], i: usize, left: usize) -> usize
    ensures { result ≤ left }
{
    if lengths.len() <= i {
        return left;
    }
    let n = size(lengths[i]);
    if left < n {
        return left;
    }
    n
}

// A tag of n bytes of a text stands at a place.
fn same_tag(m: &[u8], at: usize, t: &[u8], k: usize, n: usize) -> bool
    requires { (at + n ≤ length m.now) × (k + n ≤ length t.now) }
    ensures { result ≡ true → (4 ≤ n) × Match m.now at t.now k n }
{
    if n < 4 {
        return false;
    }
    same(m, at, t, k, n)
}

// 1 for what is so, else 0. (Not `usize::from`: the contract says what a 1 tells.)
fn one(b: bool) -> usize
    ensures { (result ≤ 1) × (0 < result → b ≡ true) }
{
    if b { 1 } else { 0 }
}

// How many bytes of white space stand at a place, as far as one look goes: two, and then such as are alike. A new line and what a line begins with are that.
fn blanks(m: &[u8], p: usize) -> usize
    requires { p + 19 ≤ length m.now }
    ensures { (result ≤ 19) × (every white (part p result m.now) ≡ true) }
{
    if !tags::is_white(m[p]) {
        return 0;
    }
    if !tags::is_white(m[p + 1]) {
        return 1;
    }
    if !tags::is_white(m[p + 2]) {
        return 2;
    }
    3 + alike_to(m, p + 2, m, p + 3, 16)
}

// White space where the next byte of a text is `<`, else none. One byte or none before a tag is seen at once.
fn blanks_before(m: &[u8], p: usize, c: u8) -> usize
    requires { p + 19 ≤ length m.now }
    ensures { (result ≤ 19) × (0 < result → c ≡ 60) × (every white (part p result m.now) ≡ true) }
{
    if c != 60 {
        return 0;
    }
    let w = one(tags::is_white(m[p]));
    if m[p + w] == 60 {
        return w;
    }
    blanks(m, p)
}

// White space before a tag of n bytes, of which the first is c, where it is less than 19 and the message goes on far enough to tell.
fn white_before(m: &[u8], p: usize, c: u8, n: usize) -> Option<usize>
    requires { p ≤ length m.now }
    ensures { IfSome result (λ w. (w < 19) × (p + 19 + n ≤ length m.now) × (0 < w → c ≡ 60) × (every white (part p w m.now) ≡ true)) }
{
    if m.len() - p < 19 || m.len() - p - 19 < n {
        return None;
    }
    let w = blanks_before(m, p, c);
    if w < 19 { Some(w) } else { None }
}

// A text as it is spelled at a place, tag by tag; byte by byte from a tag on with much white space before it, and near the end of the message: the place behind it.
// (By a loop that counts, for the time.)
pub fn spell(m: &[u8], at: usize, text: &[u8], lengths: &[u8]) -> Option<usize>
    requires { (at ≤ length m.now) × (0 < length text.now) }
    ensures { IfSome result (Spelled m.now at text.now) }
{
    if at == 0 {
        return None;
    }
    let mut p = at;
    let mut i = 0;
    let mut k = 0;
    while i < text.len() {
        let n = tag_length(lengths, k, text.len() - i);
        let Some(w) = white_before(m, p, text[i], n) else {
            return by_bytes(m, p, &text[i..]);
        };
        if !same_tag(m, p + w, text, i, n) {
            return None;
        }
        p += w + n;
        i += n;
        k += 1;
    }
    Some(p)
}

// The n bytes at a place before stand at this one too, sixteen or more: the place behind them.
pub fn again(m: &[u8], at: usize, q: usize, n: usize) -> Option<usize>
    requires { at ≤ length m.now }
    ensures { IfSome result (λ r. (0 < n) × Past m.now at (part q n m.now) r) }
{
    if 16 <= n && q < at && n <= m.len() - at && same_long(m, at, m, q, n) {
        return Some(at + n);
    }
    None
}

// The start tag of an item stands at a place, after white space: the place behind it.
pub fn item_tag(m: &[u8], at: usize) -> Option<usize>
    requires { at ≤ length m.now }
    ensures { IfSome result (λ r. (r ≤ length m.now) × ItemBegins m.now at r) }
{
    let p = at + tags::spaces(&m[at..]);
    here(m, p, b"<DrctDbtTxInf>", 0, 14)
}

// ---- stretches: from behind a value to another value, as an item before had them

// How far two bytes are apart: 0 where they are the same.
fn apart(a: u8, b: u8) -> u8
    ensures { result ≡ 0 → a ≡ b }
{
    std::num::wrapping_sub_u8(a, b)
}

// The 64 bytes at two places are the same, with no branch between. (By a loop that counts, for the time.)
fn same_block(m: &[u8], at: usize, q: usize) -> bool
    requires { (at + 64 ≤ length m.now) × (q + 64 ≤ length m.now) }
    ensures { result ≡ true → Match m.now at m.now q 64 }
{
    let mut d: u8 = 0;
    let mut i = 0;
    while i < 64 {
        d |= apart(m[at + i], m[q + i]);
        i += 1;
    }
    d == 0
}

// The same for 64 bytes and more: 64 a turn, the last 64 overlap. (By a loop that counts, for the time.)
fn same_wide(m: &[u8], at: usize, q: usize, n: usize) -> bool
    requires { (at + n ≤ length m.now) × (q + n ≤ length m.now) × (64 ≤ n) }
    ensures { result ≡ true → Match m.now at m.now q n }
{
    let z = n - 64;
    let mut i = 0;
    while i < z {
        if !same_block(m, at + i, q + i) {
            return false;
        }
        i += 64;
    }
    same_block(m, at + z, q + z)
}

// The same of 64 or more. (Apart from `again`, which is laid into every run and must stay small.)
pub fn again_wide(m: &[u8], at: usize, q: usize, n: usize) -> Option<usize>
    requires { at ≤ length m.now }
    ensures { IfSome result (λ r. (0 < n) × Past m.now at (part q n m.now) r) }
{
    if 64 <= n && q < at && n <= m.len() - at && same_wide(m, at, q, n) {
        return Some(at + n);
    }
    None
}
