// Numbers read from a text: words of decimal digits between white space.
ghost use Rattle.std.specs.Prelude.{◌≡◌, ◌++◌, Ok, MatchResult};
ghost use Rattle.std.specs.Option.{option_to_list};
ghost use Rattle.notation.specs.declared.text_error.TextError.TheVariants.{OutOfMemory};
ghost use Rattle.notation.specs.Numbers.{white, appended, numbers_of};
ghost use Rattle.notation.specs.Errors.{Refuses};

use crate::text_error::TextError;
use std::alloc::Global;

// Not is_ascii_whitespace, which takes a form feed too.
fn is_white(byte: u8) -> bool
    ensures { result ≡ white byte }
{
    matches!(byte, b' ' | b'\t' | b'\n' | b'\r')
}

// A number with a byte more; None where that is no digit, or the number grows past 64 bits. Not u64::from_str, which takes a sign too.
fn append_digit(number: u64, byte: u8) -> Option<u64>
    ensures { result ≡ appended number byte }
{
    if !byte.is_ascii_digit() {
        return None;
    }
    number.checked_mul(10)?.checked_add(u64::from(byte - b'0'))
}

// Keeps the number of a word that has ended, if there was one.
fn keep(numbers: &mut Vec<u64>, word: Option<u64>) -> Result<(), TextError>
    ensures { MatchResult result (λ _. numbers.new.items ≡ numbers.old.items ++ option_to_list word) (λ e. e ≡ OutOfMemory) }
{
    if let Some(number) = word {
        numbers.push(number)?;
    }
    Ok(())
}

// All numbers of a text; or which word is the first that is no number. Byte by byte: `split` goes to the end of a word before it gives it, and
// a word that is no number may be as long as the text.
pub fn parse_numbers(heap: Global, text: &str) -> Result<Vec<u64>, TextError>
    ensures { MatchResult result (λ v. numbers_of text.now ≡ Ok v.items) (Refuses text.now) }
{
    let bytes = text.as_bytes();
    let mut numbers = Vec::new(heap);
    // The number of the word that has begun.
    let mut word = None;
    for byte in bytes {
        if is_white(*byte) {
            keep(&mut numbers, word)?;
            word = None;
        } else {
            let Some(number) = append_digit(word.unwrap_or(0), *byte) else {
                return Err(TextError::NotANumber(numbers.len() + 1));
            };
            word = Some(number);
        }
    }
    keep(&mut numbers, word)?;
    Ok(numbers)
}
