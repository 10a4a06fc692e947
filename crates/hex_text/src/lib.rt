// Bytes as hexadecimal text, and back.
#![tactic(auto)]

ghost use Rattle.std.specs.Prelude.{◌≡◌, ℕ, ◌*◌, ◌/◌, ◌%◌, ◌<◌, true, List, length, is_some, IfSome, IfOk, Some, string_bytes, MatchOption, MatchResult};
ghost use Rattle.hex_text.specs.declared.HexError.TheVariants.{Memory};
ghost use Rattle.hex_text.specs.Digits.{digit, letter, written, Pair, Says, Leads};
ghost use Rattle.hex_text.specs.Parsing.{NoDigitAt, Because};

use std::alloc::{AllocError, AllocFailed, Global};
use std::error::Error;
use std::fmt;

// Why a text is not bytes in hex.
#[derive(Clone, Copy, Debug, PartialEq, Eq)]
pub enum HexError {
    // An odd number of digits.
    Odd,
    // The first character that is no digit.
    NotADigit { place: usize },
    // There was no room for the bytes.
    Memory,
}

impl From<AllocError> for HexError {
    ghost from_gives = { λ _ r. r ≡ Memory };

    fn from(_e: AllocError) -> HexError {
        HexError::Memory
    }
}

impl From<AllocFailed<u8>> for HexError {
    ghost from_gives = { λ _ r. r ≡ Memory };

    fn from(_e: AllocFailed<u8>) -> HexError {
        HexError::Memory
    }
}

impl fmt::Display for HexError {
    fn fmt<W: fmt::Write>(&self, f: &mut fmt::Formatter<W>) -> fmt::Result {
        match self {
            HexError::Odd => f.write_str("an odd number of hex digits"),
            HexError::NotADigit { place } => {
                let number = place.saturating_add(1);
                write!(f, "character {number} is not a hex digit")
            }
            HexError::Memory => f.write_str("out of memory"),
        }
    }
}

impl Error for HexError {}

// The value of a digit of either case.
fn digit_of(c: u8) -> Option<u32>
    ensures value { result ≡ digit c }
    ensures small { IfSome result (λ v. v < 16) }
{
    char::from(c).to_digit(16)
}

// The lower-case digit of a value.
fn letter_of(value: u8) -> char
    requires { value < 16 }
    ensures { result ≡ letter value }
{
    char::from_digit(u32::from(value), 16).unwrap()
}

// The place of the first character that is no digit.
fn first_not_digit(text: &[u8]) -> Option<usize>
    ensures { MatchOption result (Leads text.now (length text.now)) (NoDigitAt text.now) }
{
    text.iter().position(|c| digit_of(*c).is_none())
}

// The byte that two digits say.
fn pair(high: u8, low: u8) -> u8
    requires high_is { is_some (digit high) ≡ true }
    requires low_is { is_some (digit low) ≡ true }
    ensures { Pair high low result }
{
    (digit_of(high).unwrap() * 16 + digit_of(low).unwrap()) as u8
}

// The bytes that an even number of digits says.
fn pack(heap: Global, text: &[u8]) -> Result<Vec<u8>, HexError>
    requires all { Leads text.now (length text.now) }
    requires even { length text.now % 2 ≡ 0 }
    ensures { MatchResult result (λ v. Says text.now v.items) (λ e. e ≡ Memory) }
{
    let (pairs, _) = text.as_chunks::<2>();
    let mut bytes = Vec::with_capacity(heap, pairs.len())?;
    for [high, low] in pairs {
        bytes.push(pair(*high, *low))?;
    }
    Ok(bytes)
}

// The bytes that a text says.
pub fn parse(heap: Global, text: &[u8]) -> Result<Vec<u8>, HexError>
    ensures answers { MatchResult result (λ v. Says text.now v.items) (Because text.now) }
    ensures reads { (bs : List ℕ) → Says text.now bs → MatchResult result (λ v. v.items ≡ bs) (λ e. e ≡ Memory) }
{
    if let Some(place) = first_not_digit(text) {
        return Err(HexError::NotADigit { place });
    }
    if text.len() % 2 != 0 {
        return Err(HexError::Odd);
    }
    pack(heap, text)
}

// Bytes in lower-case hex.
pub fn show(heap: Global, bytes: &[u8]) -> Result<String, AllocError>
    ensures lower { IfOk result (λ s. string_bytes s ≡ written bytes.now) }
    ensures says { IfOk result (λ s. Says (string_bytes s) bytes.now) }
{
    let mut text = String::new(heap);
    for b in bytes {
        text.push(letter_of(*b / 16))?;
        text.push(letter_of(*b % 16))?;
    }
    Ok(text)
}
