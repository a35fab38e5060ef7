//! The text of a name, which lies in the value itself where it is short.
ghost use Rattle.std.specs.Prelude.{◌≡◌, IfOk};

use crate::NoMemory;
use arrayvec::ArrayString;
use std::alloc::Global;

// A text. It lies behind the count of its owners, so that a name with a short one takes one block of memory.
#[derive(Debug, Drop)]
pub(crate) enum NameText {
    // In the value itself.
    Short(ArrayString<16>),
    // In memory of its own.
    Long(String),
}

impl NameText {
    ghost use Rattle.line_text.specs.NameTexts.{bytes_of};

    // A text of its own, with these bytes. Linear in the length; takes no memory for a short one.
    pub(crate) fn of(alloc: Global, text: &str) -> Result<NameText, NoMemory>
        ensures { IfOk result (λ made. bytes_of made ≡ text.now) }
    {
        match ArrayString::from(text) {
            Ok(short) => Ok(NameText::Short(short)),
            Err(_) => Ok(NameText::Long(String::from_str(alloc, text)?)),
        }
    }

    // The bytes as text. Takes no memory.
    pub(crate) fn as_str(&self) -> &str
        ensures { result.now ≡ bytes_of self.now }
    {
        match self {
            NameText::Short(short) => short.as_str(),
            NameText::Long(long) => long.as_str(),
        }
    }
}
