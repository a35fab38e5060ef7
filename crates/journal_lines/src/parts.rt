//! The first word of bytes, and what stands behind its space.
ghost use Rattle.std.specs.Prelude.{◌≡◌, ◌≢◌, ◌<◌, ◌∷◌, ◌++◌, All, IfSome, IfNone};

/// Bytes parted at their first space.
#[derive(Drop)]
pub struct Parts<'a> {
    /// Those before it.
    pub word: &'a [u8],
    /// Those behind it.
    pub rest: &'a [u8],
}

/// The bytes before the first space, and those behind it; none exactly where there is no space. Linear in the word.
pub fn first_word<'a>(bytes: &'a [u8]) -> Option<Parts<'a>>
    ensures some { IfSome result (λ parts.
        bytes.now ≡ parts.word.now ++ 32 ∷ parts.rest.now) }
    ensures first { IfSome result (λ parts. All (λ b. b ≢ 32) parts.word.now) }
    ensures none { IfNone result (All (λ b. b ≢ 32) bytes.now) }
{
    for (i, byte) in bytes.iter().enumerate() {
        if *byte == b' ' {
            return Some(Parts {
                word: &bytes[..i],
                rest: &bytes[i + 1..],
            });
        }
    }
    None
}
