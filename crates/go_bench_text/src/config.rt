//! Configuration lines: a key, a colon and a value.
ghost use Rattle.std.specs.{Prelude.{◌≡◌, ◌<◌, true, false, length, IfSome, IfNone}, List.{list_any, before_first, after_first}, Str.IsUtf8};
ghost use Rattle.go_bench_text.specs.Lines.{is_colon, without_returns, without_blanks, is_set_off, is_config, key_of, value_of};

use crate::characters::is_key;

// The line without the carriage returns at its end.
fn without_returns(line: &str) -> &str
    ensures { result.now ≡ without_returns line.now }
{
    let mut rest = line;
    while let Some(front) = rest.strip_suffix('\r') {
        rest = front;
    }
    rest
}

// What follows the space or tab that the text begins with.
fn strip_blank(text: &str) -> Option<&str>
    ensures some { IfSome result (λ more. without_blanks text.now ≡ without_blanks more.now) }
    ensures more { IfSome result (λ more. IsUtf8 more.now) }
    ensures shorter { IfSome result (λ more. length more.now < length text.now) }
    ensures none { IfNone result (without_blanks text.now ≡ text.now) }
{
    if let Some(more) = text.strip_prefix(' ') {
        return Some(more);
    }
    if let Some(more) = text.strip_prefix('\t') {
        return Some(more);
    }
    None
}

// The text without the spaces and tabs that it begins with.
fn without_blanks(text: &str) -> &str
    ensures { result.now ≡ without_blanks text.now }
{
    let mut rest = text;
    while let Some(more) = strip_blank(rest) {
        rest = more;
    }
    rest
}

// Whether a value may follow: the text is empty, or begins with a space or a tab.
fn is_set_off(text: &str) -> bool
    ensures { result ≡ is_set_off text.now }
{
    match text.as_bytes() {
        [] => true,
        [first, ..] => *first == b' ' || *first == b'\t',
    }
}

// What stands before the first colon, and behind it.
fn split_key(text: &str) -> Option<(&str, &str)>
    ensures some { IfSome result (λ cut. list_any is_colon text.now ≡ true) }
    ensures key { IfSome result (λ cut. cut.0.now ≡ before_first is_colon text.now) }
    ensures behind { IfSome result (λ cut. cut.1.now ≡ after_first is_colon text.now) }
    ensures key_text { IfSome result (λ cut. IsUtf8 cut.0.now) }
    ensures behind_text { IfSome result (λ cut. IsUtf8 cut.1.now) }
    ensures none { IfNone result (list_any is_colon text.now ≡ false) }
{
    text.split_once(':')
}

// The key and the value of a configuration line.
pub(crate) fn setting_of(line: &str) -> Option<(&str, &str)>
    ensures some { IfSome result (λ setting. is_config line.now ≡ true) }
    ensures key { IfSome result (λ setting. setting.0.now ≡ key_of line.now) }
    ensures value { IfSome result (λ setting. setting.1.now ≡ value_of line.now) }
    ensures text { IfSome result (λ setting. IsUtf8 setting.1.now) }
    ensures none { IfNone result (is_config line.now ≡ false) }
{
    let Some((key, behind)) = split_key(without_returns(line)) else {
        return None;
    };
    if is_key(key) && is_set_off(behind) {
        Some((key, without_blanks(behind)))
    } else {
        None
    }
}
