//! The program's words, those behind its name.
ghost use Rattle.std.specs.Prelude.{◌≡◌, ◌↔◌, ◌⊎◌, true, Err, IsUtf8, string_bytes, IfOk, IfErr, IsTrue};
ghost use Rattle.command_words.specs.Texts.{texts};
ghost use Rattle.tracker_top.specs.{Statuses.{Asks, AsksAudit, AsksHunt, AsksPlay}, declared.status.Status.Status};

use crate::status::Status;
use std::alloc::{AllocError, Global};
use std::env::{Env, FillError};
use std::str;

/// The words behind the program's name: `BadWords` where one is no text, since then they are no command; the name itself
/// may be none. Linear in the bytes of the words.
pub fn words_of<E: Env>(env: &E, alloc: Global) -> Result<Vec<String>, Status>
    ensures only { IfErr result (λ status. (status ≡ Status.BadWords)
        ⊎ (status ≡ Status.NoMemory)) }
{
    let mut words = Vec::new(alloc);
    for i in 1..usize::MAX {
        let Some(bytes) = word_bytes(env, alloc, i)? else {
            break;
        };
        let text = text_of(alloc, &bytes)?;
        if words.push(text).is_err() {
            return Err(Status::NoMemory);
        }
    }
    Ok(words)
}

/// Whether the first word is `play`.
pub fn asks_play(words: &[String]) -> bool
    ensures { result ≡ true ↔ AsksPlay (texts words.now) }
{
    asks(words, "play")
}

/// Whether the first word is `hunt`.
pub fn asks_hunt(words: &[String]) -> bool
    ensures { result ≡ true ↔ AsksHunt (texts words.now) }
{
    asks(words, "hunt")
}

/// Whether the first word is `audit`.
pub fn asks_audit(words: &[String]) -> bool
    ensures { result ≡ true ↔ AsksAudit (texts words.now) }
{
    asks(words, "audit")
}

// Whether the first word is this name.
fn asks(words: &[String], name: &str) -> bool
    ensures { result ≡ true ↔ Asks name.now (texts words.now) }
{
    match words.first() {
        Some(word) => is_same(word.as_str(), name),
        None => false,
    }
}

// Whether the texts are the same.
fn is_same(word: &str, name: &str) -> bool
    ensures { IsTrue result ↔ (word.now ≡ name.now) }
{
    word == name
}

// The bytes of a word, if it is there. The room for them is doubled until they fit.
fn word_bytes<E: Env>(env: &E, alloc: Global, i: usize) -> Result<Option<Vec<u8>>, AllocError> {
    let mut bytes = Vec::new(alloc);
    let mut room = 256usize;
    for _ in 0..usize::BITS {
        bytes.resize(room, 0u8)?;
        match env.arg(i, &mut bytes) {
            Ok(count) => {
                bytes.truncate(count);
                return Ok(Some(bytes));
            }
            Err(FillError::NotPresent) => return Ok(None),
            Err(FillError::TooLong) => room = room.saturating_mul(2),
        }
    }
    Err(AllocError)
}

// The text of a word's bytes: bad words exactly where they are none.
fn text_of(alloc: Global, bytes: &[u8]) -> Result<String, Status>
    ensures text { IfOk result (λ word. (string_bytes word ≡ bytes.now) × IsUtf8 bytes.now) }
    ensures bad { result ≡ Err Status.BadWords → ¬ IsUtf8 bytes.now }
    ensures only { IfErr result (λ status. (status ≡ Status.BadWords)
        ⊎ (status ≡ Status.NoMemory)) }
{
    match str::from_utf8(bytes) {
        Ok(text) => Ok(String::from_str(alloc, text)?),
        Err(_) => Err(Status::BadWords),
    }
}
