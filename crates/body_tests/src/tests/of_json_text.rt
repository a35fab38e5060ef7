//! Cases from the standard and from outside: what is read, and where each fault stands.
use crate::tests::tree_text::{is_answer, show};
use json_text::{Json, JsonFault, JsonList, JsonMembers, Member, SharedText, read_json};
use std::alloc::Global;

// Bytes and what is answered: first structures and words.
const CASES: &[(&[u8], &str)] = &[
    (b"", "NotJson 0"),
    (b" \t\r\n", "NotJson 4"),
    (b" null ", "null"),
    (b"[ ]", "[]"),
    (b"{ }", "{}"),
    (b"[true,\nfalse ]", "[true,false,]"),
    (b"{ \"a\" : 1 , \"a\" : { } }", "{a=#1,a={},}"),
    (b"{\"\":\"\"}", "{=||,}"),
    (b"[[[]],[[]]]", "[[[],],[[],],]"),
    (b"{\"a\":1,}", "NotJson 7"),
    (b"{\"a\":", "NotJson 5"),
    (b"{\"a\":}", "NotJson 5"),
    (b"{\"a\"}", "NotJson 4"),
    (b"{\"a\" 1}", "NotJson 5"),
    (b"{\"a\":1,\"b\"}", "NotJson 10"),
    (b"{\"a\":1]", "NotJson 6"),
    (b"{,}", "NotJson 1"),
    (b"{1:2}", "NotJson 1"),
    (b"{'a':1}", "NotJson 1"),
    (b"{]", "NotJson 1"),
    (b"[,1]", "NotJson 1"),
    (b"[1,]", "NotJson 3"),
    (b"[1,,2]", "NotJson 3"),
    (b"[1 2]", "NotJson 3"),
    (b"[1}", "NotJson 2"),
    (b"[}", "NotJson 1"),
    (b"[]]", "NotJson 2"),
    (b"]", "NotJson 0"),
    (b"nul", "NotJson 3"),
    (b"nulL", "NotJson 3"),
    (b"nullx", "NotJson 4"),
    (b"True", "NotJson 0"),
    (b"fals3", "NotJson 4"),
    (b"true false", "NotJson 5"),
    (b"// 1", "NotJson 0"),
    (b"\xef\xbb\xbf1", "NotJson 0"),
    (b"\xff\xfe1", "NotText 0"),
    (b"x\xff", "NotText 1"),
    (b"[\"\xc3", "NotText 2"),
    // Numbers, which keep their spelling, and near misses.
    (b"0", "#0"),
    (b"-0", "#-0"),
    (b"10", "#10"),
    (b"0.0", "#0.0"),
    (b"-0.0e-0", "#-0.0e-0"),
    (b"1e5", "#1e5"),
    (b"1E-07", "#1E-07"),
    (b"10.25e+3 ", "#10.25e+3"),
    (
        b"123456789012345678901234567890",
        "#123456789012345678901234567890",
    ),
    (b"[1.50]", "[#1.50,]"),
    (b"[1,2 , -3.0e+1]", "[#1,#2,#-3.0e+1,]"),
    (b"01", "NotJson 1"),
    (b"00", "NotJson 1"),
    (b"-01", "NotJson 2"),
    (b"-", "NotJson 1"),
    (b"-a", "NotJson 1"),
    (b"--1", "NotJson 1"),
    (b"+1", "NotJson 0"),
    (b".5", "NotJson 0"),
    (b"1.", "NotJson 2"),
    (b"1.e5", "NotJson 2"),
    (b"1.5.2", "NotJson 3"),
    (b"1e", "NotJson 2"),
    (b"1e+", "NotJson 3"),
    (b"1e++1", "NotJson 3"),
    (b"1e5.5", "NotJson 3"),
    (b"0x1", "NotJson 1"),
    (b"1_0", "NotJson 1"),
    (b"1 2", "NotJson 2"),
    (b"NaN", "NotJson 0"),
    (b"-Infinity", "NotJson 1"),
    // Texts, which are unescaped, and bad ones.
    (b"\"\\\"\\\\\\/\\n\\u0041\"", "|\"\\/\nA|"),
    (b"\"\\b\\f\\r\\t\"", "|\u{8}\u{c}\r\t|"),
    (b"\"\\u0000\"", "|\u{0}|"),
    (
        b"\"\\u00e9\\u20AC\\ud83d\\uDE00\"",
        "|\u{e9}\u{20ac}\u{1f600}|",
    ),
    (b"\"\\ud7ff\\ue000\\uffff\"", "|\u{d7ff}\u{e000}\u{ffff}|"),
    (b"\"\\ud800\\udc00\\udbff\\udfff\"", "|\u{10000}\u{10ffff}|"),
    (b"\"\xc3\xa9\x7f\"", "|\u{e9}\u{7f}|"),
    (b"\"\xff\"", "NotText 1"),
    (b"\"abc", "NotJson 4"),
    (b"\"a\nb\"", "NotJson 2"),
    (b"\"\t\"", "NotJson 1"),
    (b"\"\x1f\"", "NotJson 1"),
    (b"\"\x00\"", "NotJson 1"),
    (b"\"\\x\"", "NotJson 2"),
    (b"\"\\U0041\"", "NotJson 2"),
    (b"\"\\u00g0\"", "NotJson 5"),
    (b"\"\\u12\"", "NotJson 5"),
    (b"\"\\udc00\"", "NotJson 4"),
    (b"\"\\udfff\"", "NotJson 4"),
    (b"\"\\ud800\"", "NotJson 7"),
    (b"\"\\ud800x\"", "NotJson 7"),
    (b"\"\\ud800\\n\"", "NotJson 8"),
    (b"\"\\ud800\\u0041\"", "NotJson 9"),
    (b"\"\\ud800\\ud800\"", "NotJson 10"),
    (b"\"a\" \"b\"", "NotJson 4"),
];

#[test]
fn texts_are_read_or_refused_at_their_place(rt: HostRuntime) {
    for (bytes, wanted) in CASES {
        assert!(rt; is_answer(rt.alloc(), bytes, wanted), "{wanted}");
    }
}

/// What opens a level, a value, what closes a level, how many there are, and what is answered.
type Nested<'a> = (&'a str, &'a str, &'a str, usize, Option<&'a str>);

// A value inside so many levels, each opened and closed by these bytes, and what is answered (none: a value). Two levels at
// a time, five bytes each, the 33rd opens at byte 80.
const NESTED: [Nested; 10] = [
    ("[", "1", "]", 31, None),
    ("[", "1", "]", 32, None),
    ("[", "1", "]", 33, Some("TooDeep 32")),
    ("{\"\":", "1", "}", 31, None),
    ("{\"\":", "1", "}", 32, None),
    ("{\"\":", "1", "}", 33, Some("TooDeep 128")),
    ("[{\"\":", "1", "}]", 17, Some("TooDeep 80")),
    ("[", "?", "]", 32, Some("NotJson 32")),
    ("[", "?", "", 34, Some("TooDeep 32")),
    ("[?", "", "", 34, Some("NotJson 1")),
];

// Appends a text so many times.
fn repeat(text: &mut String, part: &str, count: usize) -> bool {
    for _ in 0..count {
        if text.push_str(part).is_err() {
            return false;
        }
    }
    true
}

// Whether the nested value is answered so.
fn nests(alloc: Global, nested: &Nested) -> bool {
    let (open, value, close, count, wanted) = nested;
    let mut text = String::new(alloc);
    if !repeat(&mut text, open, *count)
        || !repeat(&mut text, value, 1)
        || !repeat(&mut text, close, *count)
    {
        return false;
    }
    match wanted {
        Some(wanted) => is_answer(alloc, text.as_bytes(), wanted),
        None => read_json(alloc, text.as_bytes()).is_ok(),
    }
}

#[test]
fn a_33rd_level_is_too_deep(rt: HostRuntime) {
    for nested in &NESTED {
        assert!(rt; nests(rt.alloc(), nested), "{}", nested.0);
    }
}

// Whether the text is refused at this place.
fn ends_at(alloc: Global, text: &[u8], place: usize) -> bool {
    matches!(read_json(alloc, text), Err(JsonFault::NotJson(at)) if at == place as u64)
}

#[test]
fn a_text_cut_anywhere_begins_a_text(rt: HostRuntime) {
    let text =
        b"{\"a\\u00e9\\ud83d\\ude00\":[true,false,null,{\"b\":\"c\\n\"},[],{}],\"d\":-1.5e-3}";
    for count in 0..text.len() {
        assert!(rt; ends_at(rt.alloc(), &text[..count], count), "{count}");
    }
    assert!(rt; read_json(rt.alloc(), text).is_ok());
}

// A member of a list with a word and a number; none where there is no memory.
fn listed(alloc: Global) -> Option<Member> {
    let number = SharedText::of(alloc, "1.50").ok()?;
    let mut items = JsonList::new(alloc);
    if items.push(Json::Bool(true)).is_err() || items.push(Json::Number(number)).is_err() {
        return None;
    }
    let key = SharedText::of(alloc, "a").ok()?;
    Some(Member::new(key, Json::List(items)))
}

// A copy of an object with this member; none where there is no memory.
fn object_of(alloc: Global, member: Member) -> Option<Json> {
    let mut members = JsonMembers::new(alloc);
    if members.push(member).is_err() {
        return None;
    }
    Json::Object(members).copy(alloc).ok()
}

// What a copied tree looks like; none where there is no memory.
fn shown(alloc: Global) -> Option<String> {
    let tree = object_of(alloc, listed(alloc)?)?;
    let mut out = String::new(alloc);
    if show(&mut out, &tree, 3).is_err() {
        return None;
    }
    Some(out)
}

#[test]
fn a_tree_is_built_and_copied(rt: HostRuntime) {
    assert!(rt; shown(rt.alloc()).is_some_and(|text| text.as_str() == "{a=[true,#1.50,],}"));
}
