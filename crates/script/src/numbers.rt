//! A number: decimal digits and nothing else. The `FromStr` of `u32` is no such reading, since it takes a plus sign.

ghost use Rattle.std.specs.Prelude.{◌≡◌, ◌^◌, ◌<◌};
ghost use Rattle.std.specs.Option.{SomeIff};
ghost use Rattle.std.specs.Char.{digit_value};
ghost use Rattle.script.specs.Numbers.{number_of, appended};

const BASE: u32 = 10;

/// The number that the text spells: one digit or more and nothing else, below 2^32.
pub fn number(text: &str) -> Option<u32>
    ensures { result ≡ number_of text.now }
{
    number_of_bytes(text.as_bytes())
}

/// The number that the bytes spell, as `number` says of a text.
pub fn number_of_bytes(bytes: &[u8]) -> Option<u32>
    ensures { result ≡ number_of bytes.now }
{
    if bytes.is_empty() {
        return None;
    }
    bytes
        .iter()
        .try_fold(0, |value, byte| with_digit(value, *byte))
}

/// The value with one digit more, where the byte is a digit and the number still fits.
fn with_digit(value: u32, byte: u8) -> Option<u32>
    ensures { SomeIff result ((digit_value byte < 10) × (appended value byte < 2 ^ 32)) (appended value byte) }
{
    let digit = char::from(byte).to_digit(BASE)?;
    value.checked_mul(BASE)?.checked_add(digit)
}
