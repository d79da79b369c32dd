// Classes of bytes, by ranges and without a branch.
// (For the time: 32 bytes at once, each by the mask of `text::is_in`, took twice as long, in a loop of the same lines that was built by rustc.)
ghost use Rattle.std.specs.Prelude.{◌≡◌, ◌&&◌, ◌||◌};
ghost use Rattle.text.specs.Classes.{reference_set, text_set, digit, capital, capital_or_digit, letter_or_digit};
ghost use Rattle.swift_values.specs.Lanes.{slashless};

// One of the reference set, by ranges and without a branch.
pub(crate) fn in_ref(b: u8) -> bool
    ensures { result ≡ reference_set b }
{
    ((b >= 39) & (b <= 58) & (b != 42)) | (((b | 32) >= 97) & ((b | 32) <= 122)) | (b == 63)
}

// One that most references are made of: letters, digits and a few signs, and no slash. By few ranges: it is tried first.
pub(crate) fn in_usual(b: u8) -> bool
    ensures { (result && slashless b 0) ≡ result }
{
    ((b >= 43) & (b <= 58) & (b != 47)) | (((b | 32) >= 97) & ((b | 32) <= 122))
}

// One of the text set, by ranges and without a branch.
pub(crate) fn in_text(b: u8) -> bool
    ensures { result ≡ text_set b }
{
    ((b >= 39) & (b <= 58) & (b != 42))
        | (((b | 32) >= 97) & ((b | 32) <= 122))
        | (b == 32)
        | (b == 63)
}

// One that most names are made of, by few ranges: it is tried first.
pub(crate) fn in_name(b: u8) -> bool
    ensures { (result && text_set b) ≡ result }
{
    ((b >= 43) & (b <= 58)) | (((b | 32) >= 97) & ((b | 32) <= 122)) | (b == 32)
}

// A digit.
pub(crate) fn in_digit(b: u8) -> bool
    ensures { result ≡ digit b }
{
    (b >= 48) & (b <= 57)
}

// A capital.
pub(crate) fn in_capital(b: u8) -> bool
    ensures { result ≡ capital b }
{
    (b >= 65) & (b <= 90)
}

// A capital or a digit.
pub(crate) fn in_cap(b: u8) -> bool
    ensures { result ≡ capital_or_digit b }
{
    ((b >= 48) & (b <= 57)) | ((b >= 65) & (b <= 90))
}

// A letter or a digit.
pub(crate) fn in_business(b: u8) -> bool
    ensures { result ≡ letter_or_digit b }
{
    ((b >= 48) & (b <= 57)) | ((b >= 65) & (b <= 90)) | ((b >= 97) & (b <= 122))
}
