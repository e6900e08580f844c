//! JSON texts: worked cases and hostile texts, and that calls succeed where memory is ample.
//! A case is a line, what is given before the arrow and what is wanted behind it.
use crate::cases::{Subject, each_holds};
use ml_json::{
    Json, JsonFault, Lent, coordinate, e7, lend, put_e7, put_string, read, whole_part, write,
    write_e7,
};
use ml_ratio::Text;
use std::alloc::Global;
use std::process::Abort;

/// Texts, and which fault refuses them.
const TEXTS: &str = r#"{"a":1,} => NotJson 7
{"type":"Feature => NotJson 16
 => NotJson 0
  => NotJson 1
1 2 => NotJson 2
[1]] => NotJson 3
 1, => NotJson 2
 "a", => NotJson 4
[1,] => NotJson 3
[,1] => NotJson 1
[1 2] => NotJson 3
[1} => NotJson 2
{"a":1] => NotJson 6
[1,2} => NotJson 4
[1,2: => NotJson 4
[1,"a"} => NotJson 6
{"a":"b"] => NotJson 8
{"a" 1} => NotJson 5
{a:1} => NotJson 1
{,} => NotJson 1
nul => NotJson 3
truth => NotJson 3
False => NotJson 0
{"a":1,"a":2} => none
01 => NotJson 1
00 => NotJson 1
- => NotJson 1
-x => NotJson 1
1. => NotJson 2
1.e1 => NotJson 2
1e => NotJson 2
1e+ => NotJson 3
.5 => NotJson 0
+1 => NotJson 0
0x1 => NotJson 1
-0 => none
1E-999999999999999999999999999999 => none
"a => NotJson 2
"\x" => NotJson 2
"\u12g4" => NotJson 5
"\u12 => NotJson 5
"\ => NotJson 2"#;

/// Bytes in hexadecimal digits, and which fault refuses them.
const BYTES: &str = "0c 31 => NotJson 0
20 5b 20 5d 20 09 0d 0a => none
22 0a 22 => NotJson 1
22 1f 22 => NotJson 1
22 7f 22 => none
22 80 22 => NotJson 1
22 c0 af 22 => NotJson 1
22 c1 bf 22 => NotJson 1
22 c3 28 22 => NotJson 2
22 e0 9f bf 22 => NotJson 2
22 ed a0 80 22 => NotJson 2
22 f0 8f bf bf 22 => NotJson 2
22 f4 90 80 80 22 => NotJson 2
22 f5 => NotJson 1
22 e2 82 22 => NotJson 3
22 e2 82 => NotJson 3
ef => NotJson 1
ef 31 => NotJson 1
ef bb 31 => NotJson 2
ef bb bf => NotJson 3
ef bb bf ef bb bf 31 => NotJson 3
ef bb bf 31 => none";

/// How often a front is repeated, the front, and what follows it; and which fault refuses the text.
const FRONTS: &str = r#"64 [ => NotJson 64
65 [ => Deep 64
1000000 [ => Deep 64
64 {"": [1] => Deep 256
65 {"": => Deep 256"#;

/// Texts, and the canonical text of their value.
const CANONICAL: &str = r#" null  => null
[true,false] => [true,false]
 [ 1 , 2.50 , -1E+5 ]  => [1,2.50,-1E+5]
[[ ],{ }] => [[],{}]
{"a":1,"a":2} => {"a":2}
{"a":1,"\u0061":2} => {"a":2}
{"b":1,"ü":2,"a":3,"":4,"Z":5} => {"":4,"Z":5,"a":3,"b":1,"ü":2}
"\ud800" => "�"
"\ud83d\ude00" => "😀"
"\uDE00\uD83D" => "��"
"\ud83d\ud83d\ude00" => "�😀"
"\ud83dx\ud83d\n" => "�x�\n"
"\/\b\f\n\r\t\"\\\u001F" => "/\b\f\n\r\t\"\\\u001f""#;

/// Numbers, and the coordinates that they are.
const COORDINATES: &str = "8.54169415 => 85416942
8.541694150000001 => 85416942
8.541694149 => 85416941
-0.00000005 => -1
0.000000049999999999999999999999 => 0
1e1 => 100000000
0e99999999999 => 0
200.00000004 => 2000000000
200.00000005 => none
200.0000001 => none
-200 => -2000000000
-0 => 0
12345678901234567890e-19 => 12345679
0.00000000000000000000000000000000000000001e41 => 10000000
100000000000000000000000000000000000000000E-41 => 10000000
0.0e999999999999999999999999999999 => 0
1e999999999999999999999999999999 => none
1e-999999999999999999999999999999 => 0";

/// Numbers, and their whole parts.
const WHOLE_PARTS: &str = "12.9 => 12
-3 => 0
-0.5 => 0
0.99 => 0
123456e-3 => 123
9007199254740991.9 => 9007199254740991
9007199254740993 => 9007199254740992
1e400 => 9007199254740992
0e999999999999999999999999999999 => 0";

/// Coordinates, and their texts.
const WRITTEN: &str = "85416942 => 8.5416942
-1 => -0.0000001
0 => 0.0000000
2000000000 => 200.0000000
-1234567890 => -123.4567890";

/// The fault of this name with its place.
fn fault(rt: &impl Abort, text: &str) -> Option<JsonFault> {
    match text.split_once(' ') {
        None => None,
        Some(("Deep", at)) => Some(JsonFault::Deep(at.parse::<usize>().expect(rt, "a number"))),
        Some((_, at)) => Some(JsonFault::NotJson(at.parse::<usize>().expect(rt, "a number"))),
    }
}

/// Why the reader refuses the bytes.
fn refusal(alloc: Global, bytes: &[u8]) -> Option<JsonFault> {
    match read(alloc, bytes) {
        Ok(_value) => None,
        Err(fault) => Some(fault),
    }
}

/// The bytes that the digits write.
fn bytes_of(rt: &impl Abort, alloc: Global, digits: &str) -> Vec<u8> {
    let mut bytes = Vec::new(alloc);
    for byte in digits.split_whitespace() {
        bytes
            .push(u8::from_str_radix(byte, 16).expect(rt, "digits"))
            .expect(rt, "memory");
    }
    bytes
}

/// The front, repeated, and what follows it.
fn repeated(rt: &impl Abort, alloc: Global, text: &str) -> String {
    let (count, text) = text.split_once(' ').expect(rt, "a count");
    let (front, end) = text.split_once(' ').unwrap_or((text, ""));
    let mut all = front
        .repeat(alloc, count.parse::<usize>().expect(rt, "a number"))
        .expect(rt, "memory");
    all.push_str(end).expect(rt, "memory");
    all
}

/// The text, read and written again.
fn rewritten(rt: &impl Abort, alloc: Global, text: &str) -> Vec<u8> {
    let value = read(alloc, text.as_bytes()).expect(rt, "a value");
    write(alloc, &value).expect(rt, "memory").into_vec()
}

/// The faults of texts.
struct OfText;

impl Subject for OfText {
    fn holds(rt: &impl Abort, alloc: Global, input: &str, want: &str) -> bool {
        refusal(alloc, input.as_bytes()) == fault(rt, want)
    }
}

/// The faults of bytes in hexadecimal digits.
struct OfBytes;

impl Subject for OfBytes {
    fn holds(rt: &impl Abort, alloc: Global, input: &str, want: &str) -> bool {
        let bytes = bytes_of(rt, alloc, input);
        refusal(alloc, &bytes) == fault(rt, want)
    }
}

/// The faults of texts with a front that is repeated.
struct OfFront;

impl Subject for OfFront {
    fn holds(rt: &impl Abort, alloc: Global, input: &str, want: &str) -> bool {
        let text = repeated(rt, alloc, input);
        refusal(alloc, text.as_bytes()) == fault(rt, want)
    }
}

/// As many lists as may be open, with brackets in a string, which open nothing.
const BRACKETS: &str =
    r#"[[[[[[[[[[[[[[[[[[[[[[[[[[[[[[[[[[[[[[[[[[[[[[[[[[[[[[[[[[[[[[[["[["]]]]]]]]]]]]]]]]]]]]]]]]]]]]]]]]]]]]]]]]]]]]]]]]]]]]]]]]]]]]]]]] => none"#;

#[test]
fn texts_are_refused_at_their_first_wrong_byte(rt: HostRuntime) {
    let alloc = rt.alloc();
    each_holds::<OfText>(&rt, alloc, TEXTS);
    each_holds::<OfText>(&rt, alloc, BRACKETS);
    each_holds::<OfBytes>(&rt, alloc, BYTES);
    each_holds::<OfFront>(&rt, alloc, FRONTS)
}

#[test]
fn each_front_of_a_text_ends_too_early(rt: HostRuntime) {
    let text = b"{\"a\":[1.5e+3,-0,true,false,null,\"\\u00e9\xc3\xa9\\n\"],\"b\":{}}";
    assert!(rt; refusal(rt.alloc(), text) == None);
    for (end, _) in text.iter().enumerate() {
        assert!(rt; refusal(rt.alloc(), &text[..end]) == Some(JsonFault::NotJson(end)));
    }
}

/// The canonical texts of values.
struct OfValue;

impl Subject for OfValue {
    fn holds(rt: &impl Abort, alloc: Global, input: &str, want: &str) -> bool {
        rewritten(rt, alloc, input).as_slice() == want.as_bytes()
    }
}

/// The coordinates that numbers are.
struct OfNumber;

impl Subject for OfNumber {
    fn holds(rt: &impl Abort, alloc: Global, input: &str, want: &str) -> bool {
        let number = Text::of(alloc, input).expect(rt, "memory");
        e7(&number) == want.parse::<i64>().ok()
    }
}

/// The whole parts of numbers.
struct OfWhole;

impl Subject for OfWhole {
    fn holds(rt: &impl Abort, alloc: Global, input: &str, want: &str) -> bool {
        let number = Text::of(alloc, input).expect(rt, "memory");
        whole_part(&number) == want.parse::<u64>().expect(rt, "a number")
    }
}

/// The texts of coordinates.
struct OfCoordinate;

impl Subject for OfCoordinate {
    fn holds(rt: &impl Abort, alloc: Global, input: &str, want: &str) -> bool {
        let text = write_e7(alloc, input.parse::<i64>().expect(rt, "a number")).expect(
            rt, "memory",
        );
        text.as_str() == want
    }
}

/// The canonical text of a character that stands as itself.
const DELETE: &str = "\"\\u007f\" => \"\x7f\"";

#[test]
fn values_have_canonical_texts(rt: HostRuntime) {
    let alloc = rt.alloc();
    each_holds::<OfValue>(&rt, alloc, CANONICAL);
    each_holds::<OfValue>(&rt, alloc, DELETE)
}

/// Puts the string behind what was written, with memory for it.
fn put(rt: &impl Abort, alloc: Global, text: &str, out: &mut Vec<u8>) {
    let text = Text::of(alloc, text).expect(rt, "memory");
    put_string(out, &text).expect(rt, "memory");
}

#[test]
fn strings_and_coordinates_are_put_behind_what_was_written(rt: HostRuntime) {
    let alloc = rt.alloc();
    let mut out = Vec::new(alloc);
    put(&rt, alloc, "Zürich", &mut out);
    put_e7(&mut out, -85_417_000).expect(&rt, "memory");
    put(&rt, alloc, "a\\b\"\n", &mut out);
    put_e7(&mut out, 5).expect(&rt, "memory");
    assert!(rt; out.as_slice() == r#""Zürich"-8.5417000"a\\b\"\n"0.0000005"#.as_bytes());
}

/// The text of a value that is lent, if it has one.
fn text_of<'b, 'a>(value: &'b Lent<'a>) -> &'b str {
    match value {
        Lent::Str(text) => text.as_str(),
        Lent::Num(text) => text.as_str(),
        _ => "",
    }
}

#[test]
fn lent_texts_have_their_escapes_read(rt: HostRuntime) {
    let text = r#"["ab", "a\u0062", "ab"]"#;
    let lent = lend(rt.alloc(), text.as_bytes()).expect(&rt, "a value");
    let Lent::List(items) = &lent else {
        assert!(rt; false);
        return;
    };
    assert!(rt; items.len() == 3);
    for item in items {
        assert!(rt; text_of(item) == "ab");
    }
    assert!(rt; coordinate("-1.50") == Some(-15_000_000));
}

#[test]
fn numbers_are_exact(rt: HostRuntime) {
    let alloc = rt.alloc();
    each_holds::<OfNumber>(&rt, alloc, COORDINATES);
    each_holds::<OfWhole>(&rt, alloc, WHOLE_PARTS);
    each_holds::<OfCoordinate>(&rt, alloc, WRITTEN)
}
