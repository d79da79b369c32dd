// Bytes as text: the classes of characters that the paper names, and the questions that every value kind asks of them.
#![tactic(auto)]

ghost use Rattle.std.specs.Prelude.{◌≡◌, List, [], ◌∷◌, ◌++◌, length, take, drop, ◌-◌, ◌<◌};
ghost use Rattle.text.specs.Truth.{every, some, lead};
ghost use Rattle.text.specs.Quoted.{alike, decimal};
ghost use Rattle.text.specs.Classes.{in_class, holds, Names};

#[derive(Clone, Copy)]
pub enum Class {
    Digit,
    Capital,
    Small,
    CapitalOrDigit,
    LetterOrDigit,
    Reference,
    Text,
}

// The set that a class names, of bytes below 128: bit c stands for byte c. So a byte of any class costs one shift.
fn mask_of(k: Class) -> u128
    ensures { Names result (in_class k) }
{
    match k {
        Class::Digit => 0x00000000_00000000_03FF0000_00000000,
        Class::Capital => 0x00000000_07FFFFFE_00000000_00000000,
        Class::Small => 0x07FFFFFE_00000000_00000000_00000000,
        Class::CapitalOrDigit => 0x00000000_07FFFFFE_03FF0000_00000000,
        Class::LetterOrDigit => 0x07FFFFFE_07FFFFFE_03FF0000_00000000,
        Class::Reference => 0x07FFFFFE_07FFFFFE_87FFFB80_00000000,
        Class::Text => 0x07FFFFFE_07FFFFFE_87FFFB81_00000000,
    }
}

// Whether the set holds the byte.
fn is_held(m: u128, c: u8) -> bool
    ensures { result ≡ holds m c }
{
    c < 128 && (m >> c) % 2 == 1
}

// Whether the byte is of the class.
pub fn is_in(k: Class, c: u8) -> bool
    ensures { result ≡ in_class k c }
{
    is_held(mask_of(k), c)
}

// How many bytes of the class stand first.
pub fn run_in(k: Class, s: &[u8]) -> usize
    ensures { result ≡ lead (in_class k) s.now }
{
    let m = mask_of(k);
    s.iter().take_while(|c| is_held(m, **c)).count()
}

// Whether every byte is of the class.
pub fn all_in(k: Class, s: &[u8]) -> bool
    ensures { result ≡ every (in_class k) s.now }
{
    let m = mask_of(k);
    s.iter().all(|c| is_held(m, *c))
}

// Whether some byte is of the class.
pub fn some_in(k: Class, s: &[u8]) -> bool
    ensures { result ≡ some (in_class k) s.now }
{
    let m = mask_of(k);
    s.iter().any(|c| is_held(m, *c))
}

// Whether s holds the bytes of t, and as many.
pub fn same(t: &[u8], s: &[u8]) -> bool
    ensures { result ≡ alike t.now s.now }
{
    t == s
}

// The bytes of s, laid over those of `to` from its beginning, as far as both go.
// (Byte by byte: for `copy_from_slice` a C program would have to bring `memmove` as well.)
pub fn lay(to: &mut [u8], s: &[u8])
    ensures laid { to.new ≡ take (length to.old) s.now ++ drop (length s.now) to.old }
    ensures whole { length to.old ≡ length s.now → to.new ≡ s.now }
{
    for i in 0..to.len().min(s.len()) {
        to[i] = s[i];
    }
}

// What a character adds to a number: a digit's worth, and 0 for what stands below the digits.
fn unit(c: u8) -> u32
    ensures value { result ≡ c - 48 }
    ensures upper_bound { result < 256 }
{
    u32::from(c.saturating_sub(b'0'))
}

// The number that two digits write.
pub fn pair(a: u8, b: u8) -> u32
    ensures { result ≡ decimal (a ∷ b ∷ []) }
{
    unit(a) * 10 + unit(b)
}
