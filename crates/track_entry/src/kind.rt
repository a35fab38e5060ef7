//! The word that an entry's text begins with.
ghost use Rattle.std.specs.Prelude.{◌≡◌, bytes_eq};
ghost use Rattle.track_entry.specs.Kinds.{kind_in};

/// The kinds of entries, as their texts tell them.
#[derive(Clone, Copy)]
pub enum Kind {
    Commit,
    Accept,
    Retract,
    Tune,
    Publish,
    Raise,
    Move,
    Begin,
    Answer,
    GiveUp,
}

/// The kind of which this is the word; none where it is no kind's word.
pub fn read_kind(word: &[u8]) -> Option<Kind>
    ensures { result ≡ kind_in word.now }
{
    if is_same(word, b"commit") {
        Some(Kind::Commit)
    } else if is_same(word, b"accept") {
        Some(Kind::Accept)
    } else if is_same(word, b"retract") {
        Some(Kind::Retract)
    } else if is_same(word, b"tune") {
        Some(Kind::Tune)
    } else if is_same(word, b"publish") {
        Some(Kind::Publish)
    } else if is_same(word, b"raise") {
        Some(Kind::Raise)
    } else if is_same(word, b"move") {
        Some(Kind::Move)
    } else if is_same(word, b"begin") {
        Some(Kind::Begin)
    } else if is_same(word, b"answer") {
        Some(Kind::Answer)
    } else if is_same(word, b"giveup") {
        Some(Kind::GiveUp)
    } else {
        None
    }
}

fn is_same(bytes: &[u8], word: &[u8]) -> bool
    ensures { result ≡ bytes_eq bytes.now word.now }
{
    bytes == word
}
