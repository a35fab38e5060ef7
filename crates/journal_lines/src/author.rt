//! The word of an author, read.
ghost use Rattle.std.specs.Prelude.{◌≡◌, ◌≢◌, ◌<◌, ◌^◌, ℕ, [], IfSome, IfNone, decimal};
ghost use Rattle.history_model.specs.declared.entries.Author.{Author as AnAuthor};
ghost use Rattle.history_model.specs.declared.entries.Author.TheVariants as author;
ghost use Rattle.journal_lines.specs.{Texts.author_word, Lines.IsAuthor};

use history_model::Author;
use line_text::read_u64;

// The author that a word names; none exactly where it names none.
pub(crate) fn read_author(word: &[u8]) -> Option<Author>
    ensures some { IfSome result (λ a. (word.now ≡ author_word a) × IsAuthor a) }
    ensures none { IfNone result ((a : AnAuthor) → IsAuthor a → word.now ≢ author_word a) }
{
    let Some(letter) = word.first() else {
        return None;
    };
    let digits = &word[1..];
    match *letter {
        b'k' => kept_author(digits),
        b's' => Some(Author::Script(read_number(digits)?)),
        b'r' => Some(Author::Recompute(read_number(digits)?)),
        b'b' => Some(Author::Bisect(read_number(digits)?)),
        _ => None,
    }
}

// The author of kept entries, where nothing stands behind the letter.
fn kept_author(rest: &[u8]) -> Option<Author>
    ensures some { IfSome result (λ a. (a ≡ author.Kept) × (rest.now ≡ [])) }
    ensures none { IfNone result (rest.now ≢ []) }
{
    if rest.is_empty() {
        return Some(Author::Kept);
    }
    None
}

// The number of a byte that a word spells; none exactly where it spells none.
fn read_number(word: &[u8]) -> Option<u8>
    ensures some { IfSome result (λ n. (word.now ≡ decimal n) × (n < 2 ^ 8)) }
    ensures none { IfNone result ((n : ℕ) → n < 2 ^ 8 → word.now ≢ decimal n) }
{
    u8::try_from(read_u64(word)?).ok()
}
