// A line of text as numbers apart by blanks.
ghost use Rattle.std.specs.Prelude.{◌≡◌, ◌<◌, [], ◌∷◌, length, IfSome, MatchOption, MatchResult};
ghost use Rattle.counting.specs.Faults.{Unread};
ghost use Rattle.counting.specs.Lines.{Reads, WholeNumber, blank, decimal_value, number_of, words};

use crate::fault::LineFault;
use std::alloc::Global;

// Whether a byte is a blank.
fn is_blank(b: u8) -> bool
    ensures { result ≡ blank b }
{
    matches!(b, b' ' | b'\t' | b'\r')
}

// The first word of a text, and what stands behind it. No split: each blank of a run would be a piece of its own.
fn next_word(text: &[u8]) -> Option<(&[u8], &[u8])>
    ensures word { MatchOption result (words text.now ≡ []) (λ p. words text.now ≡ p.0.now ∷ words p.1.now) }
    ensures less { IfSome result (λ p. length p.1.now < length text.now) }
{
    let start = text.iter().position(|b| !is_blank(*b))?;
    let (_, text) = text.split_at(start);
    let end = text.iter().position(|b| is_blank(*b)).unwrap_or(text.len());
    Some(text.split_at(end))
}

// The number that a word writes. No parse: a number past the largest is held there, and so is above every hatching.
fn number(word: &[u8]) -> Option<u32>
    ensures { result ≡ number_of word.now }
{
    let mut value = 0u32;
    for b in word {
        let digit = char::from(*b).to_digit(10)?;
        value = value.saturating_mul(10).saturating_add(digit);
    }
    Some(value)
}

// The numbers of a line, in their order.
pub fn numbers(heap: Global, line: &[u8]) -> Result<Vec<u32>, LineFault>
    ensures { MatchResult result (λ v. Reads line.now v.items) (Unread (words line.now)) }
{
    let mut found = Vec::new(heap);
    let mut rest = line;
    while let Some((word, behind)) = next_word(rest) {
        let n = number(word).ok_or(LineFault::NoNumber(found.len()))?;
        found.push(n)?;
        rest = behind;
    }
    Ok(found)
}

// The number that a text writes: decimal digits alone, and at most the largest number of 32 bits.
pub fn whole_number(text: &str) -> Option<u32>
    ensures { MatchOption result (WholeNumber text.now → ⊥) (λ k. WholeNumber text.now × (k ≡ decimal_value text.now)) }
{
    if text.starts_with('+') {
        return None;
    }
    text.parse().ok()
}
