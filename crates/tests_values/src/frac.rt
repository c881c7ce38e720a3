//! Fractions, decimal numbers, names and the words of faults.
//!
//! A row is a call, ` => ` and its answer: a fraction as it is written, or the words of a fault.

use std::alloc::Global;
use std::cmp::Ordering;
use std::test::Fail;
use vt_frac::{
    Frac, FracFault, Name, NoMemory, is_symbol_name, reduced_is_lowest, reduced_keeps_the_value,
};

/// The fraction `n/d`, or `n` over 1.
fn frac_of(text: &str) -> Option<Frac> {
    let (n, d) = text.split_once('/').unwrap_or((text, "1"));
    Frac::new(n.parse::<i64>().ok()?, d.parse::<i64>().ok()?).ok()
}

/// Whether the fraction is written so.
fn is_written(alloc: Global, fraction: Frac, want: &str) -> bool {
    let mut text = Vec::new(alloc);
    fraction.write(alloc, &mut text).is_ok() && text.as_slice() == want.as_bytes()
}

/// Whether these are the words of the fault.
fn has_words(alloc: Global, fault: FracFault, want: &str) -> bool {
    match fault.to_string(alloc) {
        Ok(words) => words.as_str() == want,
        Err(_) => false,
    }
}

fn is_told(alloc: Global, answer: Result<Frac, FracFault>, want: &str) -> bool {
    match answer {
        Ok(fraction) => is_written(alloc, fraction, want),
        Err(fault) => has_words(alloc, fault, want),
    }
}

/// Whether a call of two fractions gives this.
fn gives(alloc: Global, call: &str, a: Frac, b: Frac, want: &str) -> bool {
    if call == "add" {
        return is_told(alloc, a.add(b), want);
    }
    if call == "sub" {
        return is_told(alloc, a.sub(b), want);
    }
    if call == "mul" {
        return is_told(alloc, a.mul(b), want);
    }
    if call == "div" {
        return is_told(alloc, a.div(b), want);
    }
    call == "rem" && is_told(alloc, a.rem(b), want)
}

/// Whether the fraction of two numbers is this.
fn is_made(alloc: Global, n: &str, d: &str, want: &str) -> Option<bool> {
    let made = Frac::new(n.parse::<i64>().ok()?, d.parse::<i64>().ok()?);
    Some(is_told(alloc, made, want))
}

/// Whether the call of a row gives what the row says.
fn holds(alloc: Global, row: &str) -> Option<bool> {
    let (call, want) = row.split_once(" => ")?;
    let (name, operands) = call.split_once(' ')?;
    let (a, b) = operands.split_once(", ")?;
    if name == "new" {
        return is_made(alloc, a, b, want);
    }
    Some(gives(alloc, name, frac_of(a)?, frac_of(b)?, want))
}

/// The first row that does not hold, or nothing.
fn first_wrong(alloc: Global, rows: &str) -> Option<&str> {
    for row in rows.lines() {
        if holds(alloc, row) != Some(true) {
            return Some(row);
        }
    }
    None
}

const MADE: &str = "\
new 1, 2 => 1/2
new 2, 4 => 1/2
new -2, 4 => -1/2
new 2, -4 => -1/2
new -6, -4 => 3/2
new 0, 5 => 0
new 0, -5 => 0
new 1071, 462 => 51/22
new 9223372036854775807, 1 => 9223372036854775807
new 1, 9223372036854775807 => 1/9223372036854775807
new 9223372036854775807, -9223372036854775807 => -1
new -9223372036854775808, 2 => -4611686018427387904
new -9223372036854775808, -2 => 4611686018427387904
new -9223372036854775808, 6 => -4611686018427387904/3
new 2, -9223372036854775808 => -1/4611686018427387904
new -9223372036854775808, -9223372036854775808 => 1
new 0, -9223372036854775808 => 0
new -9223372036854775808, 1 => a part of the fraction is above 2^63 - 1
new -9223372036854775808, -1 => a part of the fraction is above 2^63 - 1
new -9223372036854775808, 3 => a part of the fraction is above 2^63 - 1
new 3, -9223372036854775808 => a part of the fraction is above 2^63 - 1
new 0, 0 => division by zero
new -9223372036854775808, 0 => division by zero
";

const COMPUTED: &str = "\
add 1/2, 1/3 => 5/6
add 1/6, 1/3 => 1/2
add -1/2, 1/2 => 0
add 9223372036854775807/2, 9223372036854775807/2 => 9223372036854775807
add 1/9223372036854775807, 1/9223372036854775807 => 2/9223372036854775807
add 9223372036854775807, 1 => a part of the fraction is above 2^63 - 1
add 1/9223372036854775807, 1/9223372036854775806 => a part of the fraction is above 2^63 - 1
add 599/10, 1/1000000000000000000 => a part of the fraction is above 2^63 - 1
sub 1/2, 1/3 => 1/6
sub 1/3, 1/2 => -1/6
sub 0, 9223372036854775807 => -9223372036854775807
sub -9223372036854775807, 1 => a part of the fraction is above 2^63 - 1
mul 2/3, 3/4 => 1/2
mul -9223372036854775807, -1 => 9223372036854775807
mul 9223372036854775807, 1/9223372036854775807 => 1
mul 4294967296, 2147483648 => a part of the fraction is above 2^63 - 1
mul 1/9223372036854775807, 1/2 => a part of the fraction is above 2^63 - 1
div 7, 2 => 7/2
div 60, 97 => 60/97
div 1/2, -1/3 => -3/2
div 1, -1/9223372036854775807 => -9223372036854775807
div 1, 0 => division by zero
div 0, 0 => division by zero
div 9223372036854775807, 1/2 => a part of the fraction is above 2^63 - 1
rem 7, 2 => 1
rem 7, -2 => -1
rem -7, 2 => 1
rem -7, -2 => -1
rem 6, -3 => 0
rem 7/2, 2 => 3/2
rem -1/2, 1/3 => 1/6
rem 1/2, -1/3 => -1/6
rem 9223372036854775807, 1/2 => 0
rem 9223372036854775807, 2/3 => 1/3
rem -1, 9223372036854775807 => 9223372036854775806
rem 5, 0 => division by zero
rem -1/9223372036854775807, 9223372036854775806 => a part of the fraction is above 2^63 - 1
";

#[test]
fn fractions_are_exact(rt: HostRuntime) {
    assert_eq!(rt; first_wrong(rt.alloc(), MADE), None);
    assert_eq!(rt; first_wrong(rt.alloc(), COMPUTED), None);
}

#[test]
fn the_laws_of_fractions_are_there() {
    reduced_is_lowest();
    reduced_keeps_the_value();
}

const DECIMALS: &str = "\
0 => 0
7 => 7
007 => 7
0.50 => 1/2
1.25 => 5/4
59.9 => 599/10
00.250 => 1/4
9223372036854775807 => 9223372036854775807
0000000000000000007 => 7
0.000000000000000001 => 1/1000000000000000000
000000000000000001.5 => 3/2
10.000000000000000000 => 10
999999999999999999.5 => 1999999999999999999/2
 => not a decimal number
. => not a decimal number
.5 => not a decimal number
5. => not a decimal number
1.2.3 => not a decimal number
1..2 => not a decimal number
-1 => not a decimal number
+1 => not a decimal number
 1 => not a decimal number
1e5 => not a decimal number
1.-2 => not a decimal number
00000000000000000007a => not a decimal number
00000000000000000000. => not a decimal number
00000000000000000007 => too many digits
0.0000000000000000001 => too many digits
0000000000000000001.5 => too many digits
9223372036854775808 => a part of the fraction is above 2^63 - 1
59.999999999999999999 => a part of the fraction is above 2^63 - 1
999999999999999999.999999999999999999 => a part of the fraction is above 2^63 - 1
";

/// Whether a text is read or refused as its row says.
fn is_read(alloc: Global, row: &str) -> Option<bool> {
    let (text, want) = row.split_once(" => ")?;
    match Frac::read_decimal(text.as_bytes()) {
        Ok(fraction) => Some(is_written(alloc, fraction, want)),
        Err(fault) => Some(fault.to_string(alloc).ok()?.as_str() == want),
    }
}

/// The first row that does not hold, or nothing.
fn wrong_decimal(alloc: Global) -> Option<&'static str> {
    for row in DECIMALS.lines() {
        if is_read(alloc, row) != Some(true) {
            return Some(row);
        }
    }
    None
}

#[test]
fn decimals_are_read_or_refused(rt: HostRuntime) {
    assert_eq!(rt; wrong_decimal(rt.alloc()), None);
}

const FLOORS: &str = "\
7/2 => 3
-7/2 => -4
121/2 => 60
-1/2 => -1
0 => 0
-3 => -3
-1/9223372036854775807 => -1
-9223372036854775807 => -9223372036854775807
";

fn is_floor(row: &str) -> Option<bool> {
    let (fraction, want) = row.split_once(" => ")?;
    Some(frac_of(fraction)?.floor() == want.parse::<i64>().ok()?)
}

/// The first row that does not hold, or nothing.
fn wrong_floor() -> Option<&'static str> {
    for row in FLOORS.lines() {
        if is_floor(row) != Some(true) {
            return Some(row);
        }
    }
    None
}

#[test]
fn floors_round_down(rt: HostRuntime) {
    assert_eq!(rt; wrong_floor(), None);
}

fn order_word(order: Ordering) -> &'static str {
    match order {
        Ordering::Less => "below",
        Ordering::Equal => "same",
        Ordering::Greater => "above",
    }
}

/// Whether `<` and `==` say the same as the order of two fractions.
fn agrees(a: Frac, b: Frac, order: Ordering) -> bool {
    (a < b) == (order == Ordering::Less) && (a == b) == (order == Ordering::Equal)
}

/// Whether the order of two fractions is the one that the row names, and `<` and `==` say the same.
fn is_ordered(row: &str) -> Option<bool> {
    let (pair, want) = row.split_once(" => ")?;
    let (a, b) = pair.split_once(", ")?;
    let (a, b) = (frac_of(a)?, frac_of(b)?);
    let order = a.cmp(&b);
    Some(agrees(a, b, order) && order_word(order) == want)
}

const ORDERED: &str = "\
1/2, 1/3 => above
1/3, 1/2 => below
-1/2, -1/3 => below
2/4, 1/2 => same
0/7, 0/-1 => same
-1/9223372036854775807, 0 => below
9223372036854775807/9223372036854775806, 9223372036854775806/9223372036854775805 => below
121/2, 60 => above
";

/// The first row that does not hold, or nothing.
fn wrong_order() -> Option<&'static str> {
    for row in ORDERED.lines() {
        if is_ordered(row) != Some(true) {
            return Some(row);
        }
    }
    None
}

#[test]
fn fractions_are_ordered_by_their_values(rt: HostRuntime) {
    assert_eq!(rt; wrong_order(), None);
}

const SYMBOL_NAMES: &str = "\
a => yes
_ => yes
Zz_09 => yes
a2345678901234567890123456789012345678901234567890123456789_1234 => yes
a2345678901234567890123456789012345678901234567890123456789_12345 => no
 => no
9a => no
a-b => no
a b => no
é => no
";

fn is_named(row: &str) -> Option<bool> {
    let (name, want) = row.split_once(" => ")?;
    Some(is_symbol_name(name.as_bytes()) == (want == "yes"))
}

/// The first row that does not hold, or nothing.
fn wrong_name() -> Option<&'static str> {
    for row in SYMBOL_NAMES.lines() {
        if is_named(row) != Some(true) {
            return Some(row);
        }
    }
    None
}

#[test]
fn names_of_symbols(rt: HostRuntime) {
    assert_eq!(rt; wrong_name(), None);
}

/// Whether a copy of a name has its bytes.
fn names_are_copied(alloc: Global) -> Option<bool> {
    let copy = Name::of(alloc, b"drums").ok()?.copy(alloc).ok()?;
    Some(copy.as_bytes() == b"drums".as_slice())
}

#[test]
fn names_and_want_of_memory(rt: HostRuntime) -> Result<(), Fail> {
    assert_eq!(rt; names_are_copied(rt.alloc()), Some(true));
    let text = format!(in rt.alloc(); "{NoMemory}")?;
    assert_eq!(rt; text.as_str(), "out of memory");
    Ok(())
}
