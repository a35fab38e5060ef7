//! The classes of characters that tell lines apart.
ghost use Rattle.std.specs.{Prelude.{◌≡◌, ◌++◌, ◌∷◌, [], IfSome, IfNone}, Char.encode_utf8, Str.{chars, IsUtf8}, List.list_all};
ghost use Rattle.go_bench_text.specs.Characters.{is_upper, is_lower, is_of_key, is_key, is_name};

use unicode::properties::GeneralCategory;

// The first character of a text, and what follows it.
pub(crate) fn split_first(text: &str) -> Option<(char, &str)>
    ensures bytes { IfSome result (λ cut. text.now ≡ encode_utf8 cut.0 ++ cut.1.now) }
    ensures chars { IfSome result (λ cut. chars text.now ≡ cut.0 ∷ chars cut.1.now) }
    ensures more { IfSome result (λ cut. IsUtf8 cut.1.now) }
    ensures none { IfNone result ((text.now ≡ []) × (chars text.now ≡ [])) }
{
    let mut rest = text.chars();
    let first = rest.next()?;
    Some((first, rest.as_str()))
}

// Whether the character is upper case.
fn is_upper(c: char) -> bool
    ensures { result ≡ is_upper c }
{
    GeneralCategory::for_char(c) == GeneralCategory::UppercaseLetter
}

// Whether the character is lower case.
fn is_lower(c: char) -> bool
    ensures { result ≡ is_lower c }
{
    GeneralCategory::for_char(c) == GeneralCategory::LowercaseLetter
}

// Whether the character may stand in a key.
fn is_of_key(c: char) -> bool
    ensures { result ≡ is_of_key c }
{
    !c.is_whitespace() && !is_upper(c)
}

// Whether the text may be the key of a configuration line.
pub(crate) fn is_key(text: &str) -> bool
    ensures { result ≡ is_key (chars text.now) }
{
    match split_first(text) {
        None => false,
        Some((first, _)) => is_lower(first) && are_of_key(text),
    }
}

// Whether no character is white space or upper case.
fn are_of_key(text: &str) -> bool
    ensures { result ≡ list_all is_of_key (chars text.now) }
{
    let mut rest = text;
    while let Some((c, more)) = split_first(rest) {
        if !is_of_key(c) {
            return false;
        }
        rest = more;
    }
    true
}

// Whether the text may stand behind `Benchmark`.
pub(crate) fn is_name(text: &str) -> bool
    ensures { result ≡ is_name (chars text.now) }
{
    match split_first(text) {
        None => true,
        Some((first, _)) => is_upper(first),
    }
}
