//! Paths, patterns, and which match.

use std::alloc::Global;
use std::test::Fail;
use vt_frac::is_symbol_name;
use vt_path::{
    InnerKind, Path, PathFault, Pattern, any_of, inner, literal, matches, one_path_law,
    one_pattern_law, parse_path, parse_pattern,
};

/// Whether the path is written so.
fn is_path(alloc: Global, path: &Path, want: &str) -> bool {
    let mut text = Vec::new(alloc);
    path.write(alloc, &mut text).is_ok() && text.as_slice() == want.as_bytes()
}

/// Whether the pattern is written so.
fn is_pattern(alloc: Global, pattern: &Pattern, want: &str) -> bool {
    let mut text = Vec::new(alloc);
    pattern.write(alloc, &mut text).is_ok() && text.as_slice() == want.as_bytes()
}

/// Whether this is the place of the first byte that nothing continues with.
fn is_place(fault: PathFault, want: &str) -> bool {
    match fault {
        PathFault::BadPath(at) => want.parse::<u32>().ok() == Some(at),
        PathFault::NoMemory => false,
    }
}

/// Whether a path is written as it is read, or refused where its row says.
fn path_holds(alloc: Global, row: &str) -> bool {
    let (text, want) = row.split_once(" => ").unwrap_or((row, row));
    match parse_path(alloc, text.as_bytes()) {
        Ok(path) => is_path(alloc, &path, want),
        Err(fault) => is_place(fault, want),
    }
}

/// Whether a pattern is written as it is read, or refused where its row says.
fn pattern_holds(alloc: Global, row: &str) -> bool {
    let (text, want) = row.split_once(" => ").unwrap_or((row, row));
    match parse_pattern(alloc, text.as_bytes()) {
        Ok(pattern) => is_pattern(alloc, &pattern, want),
        Err(fault) => is_place(fault, want),
    }
}

/// The paths that are read: each is written as it is read.
const PATHS: &str = "\
/a
/cue/x
/live_loop/drums
/A-Z.0:9_/b
/-/./:/_
/a/a/a/a/a/a/a/a/a/a/a/a/a/a/a/a
/aaaaaaaaaabbbbbbbbbbccccccccccddddddddddeeeeeeeeeeffffffffffgggz
";

/// The texts that are refused, and where.
const NO_PATHS: &str = "\
a => 0
 => 0
/ => 1
// => 1
/a/ => 3
/a//b => 3
/a b => 2
/!body/x => 1
/a! => 2
/a* => 2
/a? => 2
/[a] => 1
/{a} => 1
/a,b => 2
/a] => 2
/abé => 3
/a/a/a/a/a/a/a/a/a/a/a/a/a/a/a/a/a => 32
/aaaaaaaaaabbbbbbbbbbccccccccccddddddddddeeeeeeeeeeffffffffffgggzz => 65
";

/// The first row that does not hold, or nothing.
fn wrong_path(alloc: Global, rows: &str) -> Option<&str> {
    for row in rows.lines() {
        if !path_holds(alloc, row) {
            return Some(row);
        }
    }
    None
}

#[test]
fn paths_are_read_or_refused_at_a_byte(rt: HostRuntime) {
    assert_eq!(rt; wrong_path(rt.alloc(), PATHS), None);
    assert_eq!(rt; wrong_path(rt.alloc(), NO_PATHS), None);
}

const PATTERNS: &str = "\
/a
/*
/**
/***
/a**
/**/x/**
/?
/[a]
/[a-z]
/[a-]
/[-a]
/[a-c-e]
/[z-a]
/{a}
/{a,b}
/{cue,set,live_loop}/x
/x[0-9]?*{a,b}y
/**/**/**/**/**/**/**/**/**/**/**/**/**/**/**/**
/aaaaaaaaaabbbbbbbbbbccccccccccddddddddddeeeeeeeeeeffffffffffggg*
/aaaaaaaaaabbbbbbbbbbccccccccccddddddddddeeeeeeeeeeffffffffffg[a]
";

/// Brackets and alternatives want at least three bytes, which do not fit after 62.
const NO_PATTERNS: &str = "\
* => 0
 => 0
/ => 1
/*/ => 3
/[ => 2
/[] => 2
/[]a] => 2
/[a => 3
/[a/b] => 3
/[!a] => 2
/[a*] => 3
/{} => 2
/{,a} => 2
/{a,} => 4
/{a,,b} => 4
/{a => 3
/{a*} => 3
/!body/x => 1
/a] => 2
/**/**/**/**/**/**/**/**/**/**/**/**/**/**/**/**/** => 48
/aaaaaaaaaabbbbbbbbbbccccccccccddddddddddeeeeeeeeeeffffffffffggga* => 65
/aaaaaaaaaabbbbbbbbbbccccccccccddddddddddeeeeeeeeeeffffffffffgg[a] => 63
/aaaaaaaaaabbbbbbbbbbccccccccccddddddddddeeeeeeeeeeffffffffffg{ab} => 64
";

/// The first row that does not hold, or nothing.
fn wrong_pattern(alloc: Global, rows: &str) -> Option<&str> {
    for row in rows.lines() {
        if !pattern_holds(alloc, row) {
            return Some(row);
        }
    }
    None
}

#[test]
fn patterns_are_read_or_refused_at_a_byte(rt: HostRuntime) {
    assert_eq!(rt; wrong_pattern(rt.alloc(), PATTERNS), None);
    assert_eq!(rt; wrong_pattern(rt.alloc(), NO_PATTERNS), None);
}

#[test]
fn the_laws_of_paths_are_there() {
    one_path_law();
    one_pattern_law();
}

const MATCHED: &str = "\
/a /a => yes
/a /b => no
/a /ab => no
/ab /a => no
/a /a/a => no
/a/b /a => no
/* /abc => yes
/* /a/b => no
/*/* /a/b => yes
/a* /a => yes
/a*c /abbc => yes
/a*c /abcb => no
/*a* /bab => yes
/? /a => yes
/? /ab => no
/a? /a => no
/a?c /abc => yes
/[abc] /b => yes
/[abc] /d => no
/[a-c] /b => yes
/[a-c] /- => no
/[c-a] /b => no
/[c-a] /c => no
/[a-] /- => yes
/[-a] /- => yes
/[a-c-e] /d => no
/[a-c-e] /- => yes
/[a-c-e] /e => yes
/[--a] /A => yes
/[a] /ab => no
/{a,bc} /bc => yes
/{a,bc} /b => no
/{a,ab}c /abc => yes
/{ab,a}bc /abc => yes
/x{a}y /xay => yes
/{cue,set}/x /set/x => yes
/{cue,set}/x /live_loop/x => no
/** /a => yes
/** /a/b/c => yes
/**/a /a => yes
/**/a /b/c/a => yes
/**/a /a/b => no
/a/** /a => yes
/a/**/b /a/b => yes
/a/**/b /a/x/y/b => yes
/a/**/b /a/x => no
/a** /abc => yes
/*** /a/b => no
";

fn match_holds(alloc: Global, row: &str) -> Option<bool> {
    let (pair, want) = row.split_once(" => ")?;
    let (pattern, path) = pair.split_once(' ')?;
    let path = parse_path(alloc, path.as_bytes()).ok()?;
    Some(is_matched(alloc, pattern, &path)? == (want == "yes"))
}

/// Whether the pattern of a text matches the path.
fn is_matched(alloc: Global, pattern: &str, path: &Path) -> Option<bool> {
    let pattern = parse_pattern(alloc, pattern.as_bytes()).ok()?;
    Some(matches(&pattern, path))
}

/// The first row that does not hold, or nothing.
fn wrong_match(alloc: Global) -> Option<&'static str> {
    for row in MATCHED.lines() {
        if match_holds(alloc, row) != Some(true) {
            return Some(row);
        }
    }
    None
}

#[test]
fn patterns_match(rt: HostRuntime) {
    assert_eq!(rt; wrong_match(rt.alloc()), None);
}

/// The inner path of a kind and a symbol's name.
fn inner_of(alloc: Global, kind: InnerKind, name: &[u8]) -> Option<Path> {
    if is_symbol_name(name) {
        return inner(alloc, kind, name).ok();
    }
    None
}

/// The pattern of the three paths of a symbol's name.
fn any_path_of(alloc: Global, name: &[u8]) -> Option<Pattern> {
    if is_symbol_name(name) {
        return any_of(alloc, name).ok();
    }
    None
}

/// Whether a copy of the pattern matches a copy of the path.
fn copies_match(alloc: Global, pattern: &Pattern, path: &Path) -> Option<bool> {
    let path = path.copy(alloc).ok()?;
    copy_matches(alloc, pattern, &path)
}

fn copy_matches(alloc: Global, pattern: &Pattern, path: &Path) -> Option<bool> {
    let pattern = pattern.copy(alloc).ok()?;
    Some(matches(&pattern, path))
}

/// Whether the path and a copy of its own pattern are written so, and that pattern matches a copy of the path and not the
/// other path.
fn has_own(alloc: Global, path: &Path, other: &Path, text: &str) -> Option<bool> {
    let own = literal(alloc, path).ok()?.copy(alloc).ok()?;
    let is_written = is_path(alloc, path, text) && is_pattern(alloc, &own, text);
    let is_matched = copies_match(alloc, &own, path) == Some(true) && !matches(&own, other);
    Some(is_written && is_matched)
}

/// Whether no pattern of a text matches the path.
fn has_no_other(alloc: Global, path: &Path) -> bool {
    for pattern in "/** /*/x /?{body,def,name,loop,stop}/x".split(' ') {
        if is_matched(alloc, pattern, path) != Some(false) {
            return false;
        }
    }
    true
}

/// Whether the inner path of a kind is written so, and its own pattern alone matches it.
fn is_inner(alloc: Global, kind: InnerKind, text: &str) -> Option<bool> {
    let path = inner_of(alloc, kind, b"x")?;
    let other = inner_of(alloc, kind, b"y")?;
    Some(has_own(alloc, &path, &other, text) == Some(true) && has_no_other(alloc, &path))
}

#[test]
fn inner_paths_have_their_own_pattern_alone(rt: HostRuntime) {
    assert!(rt; is_inner(rt.alloc(), InnerKind::Body, "/!body/x") == Some(true));
    assert!(rt; is_inner(rt.alloc(), InnerKind::Def, "/!def/x") == Some(true));
    assert!(rt; is_inner(rt.alloc(), InnerKind::Named, "/!name/x") == Some(true));
    assert!(rt; is_inner(rt.alloc(), InnerKind::Looped, "/!loop/x") == Some(true));
    assert!(rt; is_inner(rt.alloc(), InnerKind::Stop, "/!stop/x") == Some(true));
}

const STOOD_FOR: &str = "\
/cue/a => yes
/set/a => yes
/live_loop/a => yes
/cue/b => no
/osc/a => no
";

fn stands_for(alloc: Global, any: &Pattern, row: &str) -> Option<bool> {
    let (path, want) = row.split_once(" => ")?;
    let path = parse_path(alloc, path.as_bytes()).ok()?;
    Some(matches(any, &path) == (want == "yes"))
}

/// The first row that does not hold of the bare name, or nothing.
fn wrong_stand(alloc: Global, any: &Pattern) -> Option<&'static str> {
    for row in STOOD_FOR.lines() {
        if stands_for(alloc, any, row) != Some(true) {
            return Some(row);
        }
    }
    None
}

/// Whether the pattern of a bare name is written as it should, and matches as its rows say.
fn bare_name_holds(alloc: Global) -> Option<bool> {
    let any = any_path_of(alloc, b"a")?;
    Some(is_pattern(alloc, &any, "/{cue,set,live_loop}/a") && wrong_stand(alloc, &any).is_none())
}

#[test]
fn a_bare_name_stands_for_three_paths(rt: HostRuntime) {
    assert_eq!(rt; bare_name_holds(rt.alloc()), Some(true));
}

#[test]
fn a_fault_names_its_byte(rt: HostRuntime) -> Result<(), Fail> {
    let fault = PathFault::BadPath(7);
    let text = format!(in rt.alloc(); "{fault}")?;
    assert_eq!(rt; text.as_str(), "no path or pattern goes on so at byte 7");
    Ok(())
}
