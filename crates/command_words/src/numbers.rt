//! Numbers that arguments have.
ghost use Rattle.std.specs.Prelude.{◌≡◌, ◌≤◌, Some, decimal};
ghost use Rattle.command_words.specs.{Simple.IsNumberOr, Texts.{Finds, shown_if}};

use line_text::{read_u64, read_u128};

// The number that the word is, if it is one of at most this.
pub(crate) fn number_in(word: Option<&str>, most: u128) -> Option<u128>
    ensures { Finds (λ n. (shown_if word.entry ≡ Some (decimal n)) × (n ≤ most)) result }
{
    let number = read_u128(word?.as_bytes())?;
    if number > most {
        return None;
    }
    Some(number)
}

// The number that the word is, if it is one in this range.
pub(crate) fn count_in(word: Option<&str>, least: u8, most: u8) -> Option<u8>
    ensures { Finds (λ n.
        (shown_if word.entry ≡ Some (decimal n)) × (least ≤ n) × (n ≤ most)) result }
{
    let number = read_u64(word?.as_bytes())?;
    if number < u64::from(least) || number > u64::from(most) {
        return None;
    }
    Some(number as u8)
}

// The same, with a number in the range that stands for no word.
pub(crate) fn count_or(none: u8, word: Option<&str>, least: u8, most: u8) -> Option<u8>
    requires { (least ≤ none) × (none ≤ most) }
    ensures { Finds (λ n.
        IsNumberOr none (shown_if word.entry) n × (least ≤ n) × (n ≤ most)) result }
{
    if word.is_none() {
        return Some(none);
    }
    count_in(word, least, most)
}
