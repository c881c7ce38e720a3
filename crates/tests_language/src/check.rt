//! Trees that the checks allow: their blocks by number. Which trees are refused the table of the built program shows.
ghost use Rattle.std.specs.Prelude.{◌≤◌, length};

use std::alloc::Global;
use vt_check::{CheckFault, Checked, check};
use vt_lex::lex;
use vt_parse::parse;
use vt_tree::Block;

/// Texts, each with the numbers of its blocks and their parameters, or with its fault.
const ROWS: &str = "; => 0()
define :f do |a, b|; puts a; end => 0() 1(a b)
loop do; 3.times do |i|; sleep 1; end; end; x = 2 => 0() 1() 2(i)
[1].map { |x| x }.each { |y| play y } => 0() 1(x) 2(y)
if x; loop do; sleep 1; end; else; in_thread do; end; end => 0() 1() 2()
live_loop :a, init: 1 do |n|; at n do |t|; play t; end; density 2 do |i|; sleep i; end; end => 0() 1(n) 2(t) 3(i)
x = 1; 1.foo => line 1: method";

/// The tree of a text, checked.
pub(crate) fn checked_of(alloc: Global, text: &[u8]) -> Option<Result<Checked, CheckFault>>
    requires { length text.now ≤ 1048576 }
{
    let tokens = match lex(alloc, text, 1) {
        Ok(tokens) => tokens,
        Err(_) => return None,
    };
    let tree = match parse(alloc, text, &tokens) {
        Ok(tree) => tree,
        Err(_) => return None,
    };
    Some(check(alloc, tree))
}

/// What is left of a text behind the number and the parameters of a block.
fn behind<'a>(block: &Block, number: u32, text: &'a str) -> Option<&'a str> {
    let (head, rest) = text.split_once(')').unwrap_or((text, ""));
    let (first, params) = head.split_once('(')?;
    if first.parse::<u32>().ok()? != number || !are_names(block, params) {
        return None;
    }
    Some(rest.strip_prefix(' ').unwrap_or(rest))
}

/// Whether the parameters of a block are the words of a text.
fn are_names(block: &Block, words: &str) -> bool {
    let mut left = block.params.as_slice();
    for word in words.split_whitespace() {
        match left.split_first() {
            Some((name, rest)) if name.as_bytes() == word.as_bytes() => left = rest,
            _ => return false,
        }
    }
    left.is_empty()
}

/// Whether the blocks of a tree are those of a text.
fn are_blocks(checked: &Checked, text: &str) -> bool {
    let mut left = text;
    for number in 0..10 {
        let Some(block) = checked.block(number) else {
            return left.is_empty();
        };
        match behind(block, number, left) {
            Some(rest) => left = rest,
            None => return false,
        }
    }
    false
}

fn is_told(alloc: Global, fault: CheckFault, want: &str) -> bool {
    match fault.to_string(alloc) {
        Ok(words) => words.as_str() == want,
        Err(_) => false,
    }
}

/// Whether the text of a row has its blocks, or its fault.
fn holds(alloc: Global, row: &str) -> Option<bool> {
    let (text, want) = row.rsplit_once(" => ")?;
    if text.len() > 1_048_576 {
        return None;
    }
    match checked_of(alloc, text.as_bytes())? {
        Ok(checked) => Some(are_blocks(&checked, want)),
        Err(fault) => Some(is_told(alloc, fault, want)),
    }
}

/// The first row that does not hold, or nothing.
fn first_wrong(alloc: Global) -> Option<&'static str> {
    for row in ROWS.lines() {
        if holds(alloc, row) != Some(true) {
            return Some(row);
        }
    }
    None
}

#[test]
fn checked_trees_have_their_blocks(rt: HostRuntime) {
    assert_eq!(rt; first_wrong(rt.alloc()), None);
}
