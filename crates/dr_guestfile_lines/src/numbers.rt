ghost use Rattle.std.specs.Prelude.{◌≡◌, ◌≤◌, ◌<◌, IfSome};
ghost use Rattle.std.specs.Char.{is_ascii_digit};
ghost use Rattle.std.specs.List.{list_all};
ghost use Rattle.dr_guestfile_lines.specs.Numbers.{is_decimal_word, decimal_number, within};
ghost use Rattle.dr_guestfile_lines.specs.Numbers.{hex_number, hex_byte_of, spaced_number};

use dr_types::split_space;
use std::str::from_utf8;

/// Each byte is a digit.
fn all_digits(word: &[u8]) -> bool
    ensures { result ≡ list_all is_ascii_digit word.now }
{
    word.iter().all(|byte| byte.is_ascii_digit())
}

/// Whether the word is 1 to 20 digits.
fn is_decimal(word: &[u8]) -> bool
    ensures { result ≡ is_decimal_word word.now }
{
    !word.is_empty() && word.len() <= 20 && all_digits(word)
}

/// The number of a decimal word: 1 to 20 digits with a value below 2^64.
pub fn decimal(word: &[u8]) -> Option<u64>
    ensures { result ≡ decimal_number word.now }
{
    if !is_decimal(word) {
        return None;
    }
    match from_utf8(word) {
        Ok(digits) => digits.parse().ok(),
        Err(_) => None,
    }
}

/// The number of a decimal word, where it is from `low` to `high`.
pub fn number(word: &[u8], low: u64, high: u64) -> Option<u64>
    ensures value { result ≡ within low high (decimal_number word.now) }
    ensures range { IfSome result (λ number. (low ≤ number) × (number ≤ high)) }
{
    let number = decimal(word)?;
    if low <= number && number <= high {
        Some(number)
    } else {
        None
    }
}

/// The space and the number of a word that may name an address space, in a file of this version,
/// where the number is decimal and not above `most`.
pub fn spaced_number(version: u32, word: &[u8], most: u64) -> Option<(u32, u64)>
    ensures value { result ≡ spaced_number version most word.now }
    ensures space { IfSome result (λ found. found.0 ≤ 1) }
    ensures most { IfSome result (λ found. found.1 ≤ most) }
{
    let (space, digits) = split_space(version, word);
    let number = number(digits, 0, most)?;
    Some((space, number))
}

/// How many bytes a hex word has, 1 to `most` of them, and the number whose lowest byte is the
/// first.
pub fn hex_word(word: &[u8], most: usize) -> Option<(u32, u64)>
    requires { most ≤ 8 }
    ensures value { result ≡ hex_number most word.now }
    ensures byte { IfSome result (λ found. most ≤ 1 → found.1 < 256) }
{
    let mut bytes = [0; 8];
    let len = word.len() / 2;
    if len < 1 || len > most {
        return None;
    }
    hex::decode_to_slice(word, &mut bytes[..len]).ok()?;
    Some((len as u32, u64::from_le_bytes(bytes)))
}

/// The byte of a hex word of two digits.
pub fn hex_byte(word: &[u8]) -> Option<u8>
    ensures { result ≡ hex_byte_of word.now }
{
    let (_, byte) = hex_word(word, 1)?;
    Some(byte as u8)
}
