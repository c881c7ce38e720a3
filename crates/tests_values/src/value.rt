//! Values, arithmetic and comparison on them, and their text.
//!
//! A row is an operator between two values, ` => ` and the answer, or the word of a fault, spelled as `reader` says.

use crate::answers::{is_told, is_written};
use crate::reader::{arguments_of, value_of};
use std::alloc::Global;
use std::test::Fail;
use vt_frac::{Frac, Name};
use vt_value::{
    ArithOp, FaultKind, Integer, Items, OrderOp, Value, ValueFault, arith, compare, sizes,
};

fn arith_op(word: &str) -> Option<ArithOp> {
    if word == "+" {
        return Some(ArithOp::Add);
    }
    if word == "-" {
        return Some(ArithOp::Sub);
    }
    if word == "*" {
        return Some(ArithOp::Mul);
    }
    if word == "/" {
        return Some(ArithOp::Div);
    }
    if word == "%" {
        return Some(ArithOp::Rem);
    }
    None
}

fn order_op(word: &str) -> Option<OrderOp> {
    if word == "<" {
        return Some(OrderOp::Lt);
    }
    if word == "<=" {
        return Some(OrderOp::Le);
    }
    if word == ">" {
        return Some(OrderOp::Gt);
    }
    if word == ">=" {
        return Some(OrderOp::Ge);
    }
    None
}

fn truth_word(holds: bool) -> &'static str {
    if holds { "true" } else { "false" }
}

/// What a comparison tells.
fn order_word(op: OrderOp, a: &Value, b: &Value) -> &'static str {
    match compare(op, a, b) {
        Ok(holds) => truth_word(holds),
        Err(kind) => kind.word(),
    }
}

/// Whether the operator gives this.
fn gives(alloc: Global, a: &Value, word: &str, b: &Value, want: &str) -> Option<bool> {
    if word == "is" {
        return Some(truth_word(a.same(b)) == want);
    }
    if let Some(op) = order_op(word) {
        return Some(order_word(op, a, b) == want);
    }
    let op = arith_op(word)?;
    Some(is_told(alloc, &arith(alloc, op, a, b), want))
}

/// Whether the operator of a row gives what the row says.
fn holds(alloc: Global, row: &str) -> Option<bool> {
    let (call, want) = row.split_once(" => ")?;
    let (a, rest) = call.split_once(' ')?;
    let (word, b) = rest.split_once(' ')?;
    let a = value_of(alloc, a)?;
    let b = value_of(alloc, b)?;
    gives(alloc, &a, word, &b, want)
}

/// The first row that does not hold, or nothing.
fn first_wrong(alloc: Global, rows: &str) -> Option<&str> {
    for row in rows.lines() {
        if holds(alloc, row) != Some(true) {
            return Some(row);
        }
    }
    None
}

const NUMBERS: &str = "\
1 + 2 => 3
1 - 2 => -1
-3 * 4 => -12
7 / 2 => 3
-7 / 2 => -4
7 / -2 => -4
-7 / -2 => 3
7 % 2 => 1
-7 % 2 => 1
7 % -2 => -1
-7 % -2 => -1
6 % -2 => 0
1 / 0 => zero_divisor
1 % 0 => zero_divisor
9223372036854775807 + 1 => overflow
-9223372036854775807 - 1 => overflow
3037000500 * 3037000500 => overflow
4294967296 * -2147483648 => overflow
9223372036854775807 * -1 => -9223372036854775807
-9223372036854775807 / -1 => 9223372036854775807
-1 % 9223372036854775807 => 9223372036854775806
7 / 2/1 => 7/2
7/1 / 2 => 7/2
1 + 1/2 => 3/2
1/2 + 1/2 => 1/1
-1/2 * 3 => -3/2
7/2 % 2 => 3/2
-7/2 % 2 => 1/2
7/2 % -2 => -1/2
1/2 / 0 => zero_divisor
1 / 0/1 => zero_divisor
9223372036854775807/1 + 1/1 => overflow
1/9223372036854775807 * 1/2 => overflow
";

const OTHERS: &str = "\
\"ab\" + \"c\" => \"abc\"
\"\" + \"\" => \"\"
[] + [] => []
[1] + [] => [1]
\"ab\" - \"b\" => wrong_kind
[1] * [1] => wrong_kind
\"a\" / \"b\" => wrong_kind
[1] % [1] => wrong_kind
\"a\" + :a => wrong_kind
:a + :b => wrong_kind
[1] + 1 => wrong_kind
1 + [1] => wrong_kind
\"1\" + 1 => wrong_kind
1/2 + \"1\" => wrong_kind
1 / nil => wrong_kind
nil / 0 => wrong_kind
true * 1 => wrong_kind
nil + nil => wrong_kind
1 < 2 => true
2 < 2 => false
1/3 < 1/2 => true
2 <= 2/1 => true
3 <= 2 => false
2 > 3/2 => true
4/2 > 2 => false
4/2 >= 2 => true
-2 >= -1 => false
nil < 1 => wrong_kind
1 <= \"a\" => wrong_kind
:a > :b => wrong_kind
[1] >= [1] => wrong_kind
1 is 1/1 => true
2/2 is 1 => true
1/2 is 2/4 => true
1/2 is 1/3 => false
-1 is 1 => false
nil is nil => true
nil is false => false
true is false => false
:a is :a => true
:a is :b => false
:a is \"a\" => false
\"ab\" is \"abc\" => false
\"1\" is 1 => false
[1] is [1/1] => true
[1] is [2] => false
[] is [] => true
[] is nil => false
[1] is 1 => false
";

#[test]
fn operators_on_values(rt: HostRuntime) {
    assert_eq!(rt; first_wrong(rt.alloc(), NUMBERS), None);
    assert_eq!(rt; first_wrong(rt.alloc(), OTHERS), None);
}

/// A value as it is read, its text, its size, and whether it counts as true.
const VALUES: &str = "\
nil => nil, 1, false
true => true, 1, true
false => false, 1, false
0 => 0, 1, true
-9223372036854775807 => -9223372036854775807, 1, true
-7/2 => -7/2, 1, true
4/2 => 2, 1, true
:bd_haus => :bd_haus, 1, true
\"\" => \"\", 0, true
\"a b\" => \"a b\", 3, true
\"say \"hi\"\" => \"say \\\"hi\\\"\", 8, true
\"a\\b\" => \"a\\\\b\", 3, true
\"a\tb\" => \"a\\tb\", 3, true
\"\0\" => \"\\x00\", 1, true
\"\x1f\x7f\" => \"\\x1f\\x7f\", 2, true
\" ~'é\" => \" ~'é\", 5, true
[] => [], 1, true
[1, -2] => [1, -2], 3, true
[\"a\", :x, 1/2, nil] => [\"a\", :x, 1/2, nil], 5, true
";

/// Whether the text of a copy of the value is this.
fn is_copied(alloc: Global, value: &Value, want: &str) -> bool {
    match value.copy(alloc) {
        Ok(copied) => is_written(alloc, &copied, want),
        Err(_) => false,
    }
}

/// Whether a copy of the value of a row has its text, and the value its size and its truth.
fn is_described(alloc: Global, row: &str) -> Option<bool> {
    let (text, want) = row.split_once(" => ")?;
    let (want, truth) = want.rsplit_once(", ")?;
    let (want, size) = want.rsplit_once(", ")?;
    let size = size.parse::<u64>().ok()?;
    let value = value_of(alloc, text)?;
    let is_sized = value.size() == size && truth_word(value.truthy()) == truth;
    Some(is_sized && is_copied(alloc, &value, want))
}

/// The first row that does not hold, or nothing.
fn wrong_value(alloc: Global) -> Option<&'static str> {
    for row in VALUES.lines() {
        if is_described(alloc, row) != Some(true) {
            return Some(row);
        }
    }
    None
}

#[test]
fn values_have_their_text_size_and_truth(rt: HostRuntime) {
    assert_eq!(rt; wrong_value(rt.alloc()), None);
}

/// Whether a text with a newline and rings in a ring have their text, which no row can hold.
fn others_are_written(alloc: Global) -> Option<bool> {
    let line = Value::Text(Name::of(alloc, b"a\nb").ok()?);
    let rings = Value::Ring(arguments_of(alloc, "[1, 2], []")?.values);
    Some(is_written(alloc, &line, "\"a\\nb\"") && is_written(alloc, &rings, "[[1, 2], []]"))
}

/// Whether numbers are told from what is none, and the whole numbers end where they should.
fn numbers_are_told(alloc: Global) -> Option<bool> {
    let half = value_of(alloc, "1/2")?.number();
    Some(
        half == Frac::new(1, 2).ok()
            && Value::Nil.number().is_none()
            && Integer::new(i64::MIN).is_none(),
    )
}

#[test]
fn texts_of_lines_and_rings_and_numbers_of_values(rt: HostRuntime) {
    assert_eq!(rt; others_are_written(rt.alloc()), Some(true));
    assert_eq!(rt; numbers_are_told(rt.alloc()), Some(true));
}

/// Adds so many values nil.
fn add_nils(items: &mut Items, count: u32) -> Option<()> {
    for _ in 0..count {
        items.push(Value::Nil).ok()?;
    }
    Some(())
}

/// Adds so many values nil, a value, and values nil again.
fn add_between(items: &mut Items, before: u32, value: Value, behind: u32) -> Option<()> {
    add_nils(items, before)?;
    items.push(value).ok()?;
    add_nils(items, behind)
}

/// The ring of a value with so many values nil before it and behind it.
fn ring_round(alloc: Global, before: u32, value: Value, behind: u32) -> Option<Value> {
    let mut items = Items::new(alloc);
    add_between(&mut items, before, value, behind)?;
    Some(Value::Ring(items))
}

/// `levels` rings round the empty ring, each with so many values nil before the ring in it and behind it.
fn nested(alloc: Global, levels: u32, before: u32, behind: u32) -> Option<Value> {
    let mut value = Value::Ring(Items::new(alloc));
    for _ in 0..levels {
        value = ring_round(alloc, before, value, behind)?;
    }
    Some(value)
}

/// Whether the value has this size, a copy of it is the same, and its text has this length.
fn is_walked(alloc: Global, value: &Value, want: &str) -> Option<bool> {
    let (size, length) = want.split_once(' ')?;
    let size = size.parse::<u64>().ok()?;
    let length = length.parse::<usize>().ok()?;
    Some(value.size() == size && copied_length(alloc, value)? == length)
}

/// The length of the text of a copy, once the copy was found to be the same.
fn copied_length(alloc: Global, value: &Value) -> Option<usize> {
    let copied = value.copy(alloc).ok()?;
    if !value.same(&copied) {
        return None;
    }
    text_length(alloc, &copied)
}

fn text_length(alloc: Global, value: &Value) -> Option<usize> {
    let mut text = Vec::new(alloc);
    value.write(alloc, &mut text).ok()?;
    Some(text.len())
}

/// How many rings stand round the empty ring, and how many values nil before and behind each ring; the size of the
/// value, and the length of its text.
const NESTED: &str = "\
65535 0 0 => 65536 131072
32767 1 0 => 65535 229371
32767 0 1 => 65535 229371
";

/// The value of three counts.
fn nested_of(alloc: Global, counts: &str) -> Option<Value> {
    let (levels, counts) = counts.split_once(' ')?;
    let (before, behind) = counts.split_once(' ')?;
    let levels = levels.parse::<u32>().ok()?;
    nested(
        alloc,
        levels,
        before.parse::<u32>().ok()?,
        behind.parse::<u32>().ok()?,
    )
}

fn nested_holds(alloc: Global, row: &str) -> Option<bool> {
    let (counts, want) = row.split_once(" => ")?;
    let value = nested_of(alloc, counts)?;
    is_walked(alloc, &value, want)
}

/// The first row that does not hold, or nothing.
fn wrong_nested(alloc: Global) -> Option<&'static str> {
    for row in NESTED.lines() {
        if nested_holds(alloc, row) != Some(true) {
            return Some(row);
        }
    }
    None
}

/// Values of size 65,536 or one less: as deep as rings can stand in one another.
#[test]
fn deepest_values_are_walked(rt: HostRuntime) {
    assert_eq!(rt; wrong_nested(rt.alloc()), None);
}

fn has_two(items: &Items) -> bool {
    items.len() == 2 && items.get(1).is_some() && items.get(2).is_none() && !items.is_empty()
}

/// Whether a copy of the items of a ring of three gives back its last, and then the other two.
fn gives_back(alloc: Global) -> Option<bool> {
    let ring = value_of(alloc, "[1, 2, 3]")?.into_items()?;
    let mut items = ring.copy(alloc).ok()?;
    let last = items.pop()?;
    let is_last = is_written(alloc, &last, "3");
    Some(is_last && has_two(&items) && items.into_vec().len() == 2)
}

#[test]
fn lists_give_back_what_they_hold(rt: HostRuntime) {
    assert_eq!(rt; gives_back(rt.alloc()), Some(true));
    assert!(rt; Value::Nil.into_items().is_none());
}

/// A ring of so many values nil.
fn nils(alloc: Global, count: u32) -> Option<Items> {
    let mut items = Items::new(alloc);
    add_nils(&mut items, count)?;
    Some(items)
}

/// A text of so many bytes.
fn text_of_length(alloc: Global, length: usize) -> Option<Value> {
    let mut bytes = Vec::new(alloc);
    bytes.resize(length, b'a').ok()?;
    Some(Value::Text(Name::of(alloc, bytes.as_slice()).ok()?))
}

/// A text of so many bytes, or a ring of so many values nil.
fn value_of_length(alloc: Global, kind: &str, length: &str) -> Option<Value> {
    let length = length.parse::<u32>().ok()?;
    if kind == "text" {
        return text_of_length(alloc, length as usize);
    }
    Some(Value::Ring(nils(alloc, length)?))
}

/// The lengths of two texts or rings; the size of both joined, or the word of the fault.
const JOINED: &str = "\
text 4000 96 => 4096
text 4000 97 => too_large
ring 4095 1 => 4097
ring 4095 2 => too_large
";

/// Whether both joined have this size, or give this fault.
fn is_joined(alloc: Global, a: &Value, b: &Value, want: &str) -> bool {
    match arith(alloc, ArithOp::Add, a, b) {
        Ok(value) => Some(value.size()) == want.parse::<u64>().ok(),
        Err(ValueFault::Fault(kind)) => kind.word() == want,
        Err(ValueFault::NoMemory) => false,
    }
}

fn join_holds(alloc: Global, row: &str) -> Option<bool> {
    let (call, want) = row.split_once(" => ")?;
    let (kind, lengths) = call.split_once(' ')?;
    let (a, b) = lengths.split_once(' ')?;
    let a = value_of_length(alloc, kind, a)?;
    let b = value_of_length(alloc, kind, b)?;
    Some(is_joined(alloc, &a, &b, want))
}

/// The first row that does not hold, or nothing.
fn wrong_join(alloc: Global) -> Option<&'static str> {
    for row in JOINED.lines() {
        if join_holds(alloc, row) != Some(true) {
            return Some(row);
        }
    }
    None
}

#[test]
fn joins_end_at_the_limits(rt: HostRuntime) {
    assert_eq!(rt; wrong_join(rt.alloc()), None);
}

/// So many values nil, and fifteen texts of 4,096 bytes.
fn heavy(alloc: Global, count: u32) -> Option<Items> {
    let mut items = nils(alloc, count)?;
    add_texts(alloc, &mut items)?;
    Some(items)
}

fn add_texts(alloc: Global, items: &mut Items) -> Option<()> {
    for _ in 0..15 {
        items.push(text_of_length(alloc, 4_096)?).ok()?;
    }
    Some(())
}

fn most_is_held(alloc: Global) -> Option<bool> {
    let full = heavy(alloc, 4_080)?;
    let size = sizes(full.as_slice());
    Some(size == 65_520 && Value::of_items(full).is_ok())
}

fn more_is_refused(alloc: Global) -> Option<bool> {
    let over = heavy(alloc, 4_082)?;
    Some(Value::of_items(over).err() == Some(FaultKind::TooLarge))
}

#[test]
fn rings_end_at_the_limits(rt: HostRuntime) {
    assert_eq!(rt; most_is_held(rt.alloc()), Some(true));
    assert_eq!(rt; more_is_refused(rt.alloc()), Some(true));
}

/// Each fault kind by its word, in a score and in print.
#[test]
fn faults_have_their_words(rt: HostRuntime) -> Result<(), Fail> {
    assert_eq!(rt; FaultKind::NoSleep.word(), "no_sleep");
    let kind = FaultKind::UnknownName;
    let text = format!(in rt.alloc(); "{kind}")?;
    assert_eq!(rt; text.as_str(), "unknown_name");
    Ok(())
}
