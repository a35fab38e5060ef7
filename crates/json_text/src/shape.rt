//! One level of a value: what a reader of trees looks at.
ghost use Rattle.std.specs.Prelude.{◌≡◌};
ghost use Rattle.json_text.specs.{View.{tree_of, entry_of}, Shape.tree_of_shape};

use crate::tree::{Json, Member};

/// One level of a value. What is inside is borrowed from it.
#[derive(Clone, Copy)]
pub enum Shape<'a> {
    /// The word `null`.
    Null,
    /// One of the words `true` and `false`.
    Bool(bool),
    /// A number's spelling.
    Number(&'a str),
    /// A text without its quotes and escapes.
    Text(&'a str),
    /// The items, in order.
    List(&'a [Json]),
    /// The members, in order.
    Object(&'a [Member]),
}

impl Json {
    /// The value's level. Constant time; takes no memory.
    pub fn shape(&self) -> Shape<'_>
        ensures { tree_of self.now ≡ tree_of_shape result }
    {
        match self {
            Json::Null => Shape::Null,
            Json::Bool(truth) => Shape::Bool(*truth),
            Json::Number(spelling) => Shape::Number(spelling.as_str()),
            Json::Text(content) => Shape::Text(content.as_str()),
            Json::List(list) => Shape::List(&list.items),
            Json::Object(object) => Shape::Object(&object.members),
        }
    }
}

impl Member {
    /// The key, without its quotes and escapes.
    pub fn key(&self) -> &str
        ensures { result.now ≡ (entry_of self.now).0 }
    {
        self.key.as_str()
    }

    /// The value.
    pub fn value(&self) -> &Json
        ensures { tree_of result.now ≡ (entry_of self.now).1 }
    {
        &self.value
    }
}
