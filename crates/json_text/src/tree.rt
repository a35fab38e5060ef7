//! The tree of a JSON text.
ghost use Rattle.std.specs.Prelude.{◌≡◌, Some, None, [], ◌∷◌, ◌++◌, is_ok, if◌then◌else◌, IfOk, OnOk, OnErr, MatchOption};
ghost use Rattle.json_text.specs.{Tree.{no_items, no_members}, Parts.{then_item, then_member, item_count, item_at, member_count, member_at}, View.{tree_of, items_view, members_view, entry_of}};

use crate::NoMemory;
use crate::shared::SharedText;
use std::alloc::Global;

/// A JSON value. A number keeps its spelling, and an object its members in order, also those whose key comes again.
#[derive(Drop)]
#[cycle(tree)]
pub enum Json {
    /// The word `null`.
    Null,
    /// One of the words `true` and `false`.
    Bool(bool),
    /// A number, by its spelling.
    Number(SharedText),
    /// A text, without its quotes and escapes.
    Text(SharedText),
    /// A list, by its items.
    List(JsonList),
    /// An object, by its members.
    Object(JsonMembers),
}

/// The items of a list, in order.
#[derive(Drop)]
#[cycle(tree)]
pub struct JsonList {
    pub(crate) items: Vec<Json>,
}

/// The members of an object, in order.
#[derive(Drop)]
#[cycle(tree)]
pub struct JsonMembers {
    pub(crate) members: Vec<Member>,
}

/// A key and its value.
#[derive(Drop)]
#[cycle(tree)]
pub struct Member {
    /// The key, without its quotes and escapes.
    pub key: SharedText,
    /// The value.
    pub value: Json,
}

/// Adds an item at the end. Room begins with one item and grows by half: std's begins with four, and a text may have as many lists as
/// half its bytes.
fn push<T: Drop>(items: &mut Vec<T>, item: T) -> Result<(), NoMemory>
    ensures { items.new.items ≡ (if is_ok result then items.old.items ++ item ∷ [] else items.old.items) }
{
    make_room(items)?;
    Ok(items.push(item)?)
}

/// Sees that there is room for an item more.
fn make_room<T: Drop>(items: &mut Vec<T>) -> Result<(), NoMemory>
    ensures { items.new.items ≡ items.old.items }
{
    let count = items.len();
    if count < items.capacity() {
        return Ok(());
    }
    items.reserve_exact(count / 2 + 1)
}

impl Json {
    /// An equal value of its own. Linear in the value; it recurses as deep as the value is nested.
    #[cycle(copy)]
    pub fn copy(&self, alloc: Global) -> Result<Json, NoMemory>
        ensures { IfOk result (λ made. tree_of made ≡ tree_of self.now) }
    {
        match self {
            Json::Null => Ok(Json::Null),
            Json::Bool(truth) => Ok(Json::Bool(*truth)),
            Json::Number(spelling) => Ok(Json::Number(spelling.copy()?)),
            Json::Text(text) => Ok(Json::Text(text.copy()?)),
            Json::List(items) => Ok(Json::List(items.copy(alloc)?)),
            Json::Object(members) => Ok(Json::Object(members.copy(alloc)?)),
        }
    }
}

impl Member {
    /// A member of this key and value. Constant time; takes no memory.
    pub fn new(key: SharedText, value: Json) -> Member
        ensures { entry_of result ≡ (key, tree_of value) }
    {
        Member { key, value }
    }

    /// An equal member of its own. Linear in the member.
    #[cycle(copy)]
    pub fn copy(&self, alloc: Global) -> Result<Member, NoMemory>
        ensures { IfOk result (λ made. entry_of made ≡ entry_of self.now) }
    {
        Ok(Member {
            key: self.key.copy()?,
            value: self.value.copy(alloc)?,
        })
    }
}

impl JsonList {
    /// No items.
    pub fn new(alloc: Global) -> JsonList
        ensures { items_view result ≡ no_items }
    {
        JsonList {
            items: Vec::new(alloc),
        }
    }

    /// Adds an item at the end. Changes nothing where there is no memory. Constant time, spread over the calls.
    pub fn push(&mut self, item: Json) -> Result<(), NoMemory>
        ensures ok { OnOk result (items_view self.new
            ≡ then_item (items_view self.old) (tree_of item)) }
        ensures err { OnErr result (items_view self.new ≡ items_view self.old) }
    {
        Ok(push(&mut self.items, item)?)
    }

    /// An equal list of its own. Linear in the list.
    #[cycle(copy)]
    pub fn copy(&self, alloc: Global) -> Result<JsonList, NoMemory>
        ensures { IfOk result (λ made. items_view made ≡ items_view self.now) }
    {
        let mut made = JsonList::new(alloc);
        for item in &self.items {
            made.push(item.copy(alloc)?)?;
        }
        Ok(made)
    }

    /// How many items there are. Constant time.
    pub fn len(&self) -> usize
        ensures { result ≡ item_count (items_view self.now) }
    {
        self.items.len()
    }

    /// The item at this place, from 0. Constant time.
    pub fn get(&self, place: usize) -> Option<&Json>
        ensures { let found = item_at (items_view self.now) place in
            MatchOption result (found ≡ None) (λ item. found ≡ Some (tree_of item.now)) }
    {
        self.items.get(place)
    }
}

impl JsonMembers {
    /// No members.
    pub fn new(alloc: Global) -> JsonMembers
        ensures { members_view result ≡ no_members }
    {
        JsonMembers {
            members: Vec::new(alloc),
        }
    }

    /// Adds a member at the end. Changes nothing where there is no memory. Constant time, spread over the calls.
    pub fn push(&mut self, item: Member) -> Result<(), NoMemory>
        ensures ok { OnOk result (members_view self.new
            ≡ then_member (members_view self.old) (entry_of item)) }
        ensures err { OnErr result (members_view self.new ≡ members_view self.old) }
    {
        Ok(push(&mut self.members, item)?)
    }

    /// Equal members of their own. Linear in the members.
    #[cycle(copy)]
    pub fn copy(&self, alloc: Global) -> Result<JsonMembers, NoMemory>
        ensures { IfOk result (λ made. members_view made ≡ members_view self.now) }
    {
        let mut made = JsonMembers::new(alloc);
        for member in &self.members {
            made.push(member.copy(alloc)?)?;
        }
        Ok(made)
    }

    /// How many members there are. Constant time.
    pub fn len(&self) -> usize
        ensures { result ≡ member_count (members_view self.now) }
    {
        self.members.len()
    }

    /// The member at this place, from 0. Constant time.
    pub fn get(&self, place: usize) -> Option<&Member>
        ensures { let found = member_at (members_view self.now) place in
            MatchOption result (found ≡ None) (λ member. found ≡ Some (entry_of member.now)) }
    {
        self.members.get(place)
    }
}
