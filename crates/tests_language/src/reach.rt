//! What a block may write: each rule of the reach, over the texts added.

use crate::check::checked_of;
use std::alloc::Global;
use vt_frac::is_symbol_name;
use vt_path::{InnerKind, Pattern, inner, literal, parse_pattern};
use vt_reach::Reach;

/// Texts, with ` || ` between them, and questions: a text and a block of it, a pattern, and whether it may write what the pattern
/// matches. `!body/x` stands for the inner path of that name.
const ROWS: &str = "cue :a => 1.0 /cue/a yes, 1.0 /set/a no, 1.0 /cue/b no, 1.0 /cue/* yes
set (:a), 1; cue \"/x/y\" => 1.0 /set/a yes, 1.0 /cue/a no, 1.0 /x/? yes, 1.0 !def/a no
cue \"a\", 1 => 1.0 /cue/a yes, 1.0 /a no
x = :a; cue x => 1.0 /cue/a yes, 1.0 /any/thing yes, 1.0 !body/a no
cue 5 => 1.0 /cue/a yes, 1.0 !def/f no
cue => 1.0 /cue/a no
define :f do; cue :a; end => 1.0 !def/f yes, 1.1 !def/f no, 1.0 /cue/a yes, 1.1 /cue/a yes
in_thread name: :x do; end => 1.0 !name/x yes, 1.1 !name/x yes, 1.1 !name/y no
live_loop :x do; sleep 1; end => 1.1 /live_loop/x yes, 1.1 !body/x yes, 1.1 !loop/x yes, 1.1 !stop/x no, 1.0 !loop/x yes
2.times do; in_thread do; cue :a; end; end => 1.0 /cue/a yes, 1.1 /cue/a yes, 1.2 /cue/a yes
if x; cue :a; else; cue :b; end; cue :c unless y => 1.0 /cue/a yes, 1.0 /cue/b yes, 1.0 /cue/c yes
at [1, 2] do |t|; cue :a; end; [cue(:b)]; -f(set(:c, 1)) => 1.1 /cue/a yes, 1.1 /cue/b no, 1.0 /cue/b yes, 1.0 /set/c yes
define :f do; end; f || define :f do; cue :b; end => 1.0 /cue/b yes, 1.1 /cue/b no, 2.1 /cue/b yes
x = f + 1 || define :f do; cue :a; end => 1.0 /cue/a yes, 1.0 !def/f no
f += 1 || define :f do; cue :a; end => 1.0 /cue/a yes
f = 1 || define :f do; cue :a; end => 1.0 /cue/a no
live_loop :x do; sleep 1; end || live_loop :x do; cue :b; sleep 1; end => 1.1 /cue/b yes, 1.0 /cue/b yes, 2.1 /cue/b yes
define :f do; g; cue :a; end; define :g do; f; cue :b; end || f => 2.0 /cue/a yes, 2.0 /cue/b yes, 1.1 /cue/b yes, 1.2 /cue/a yes";

fn kind_of(word: &str) -> Option<InnerKind> {
    match word {
        "body" => Some(InnerKind::Body),
        "def" => Some(InnerKind::Def),
        "name" => Some(InnerKind::Named),
        "loop" => Some(InnerKind::Looped),
        "stop" => Some(InnerKind::Stop),
        _ => None,
    }
}

fn inner_pattern(alloc: Global, word: &str) -> Option<Pattern> {
    let (kind, name) = word.split_once('/')?;
    if !is_symbol_name(name.as_bytes()) {
        return None;
    }
    let path = inner(alloc, kind_of(kind)?, name.as_bytes()).ok()?;
    literal(alloc, &path).ok()
}

fn pattern_of(alloc: Global, word: &str) -> Option<Pattern> {
    match word.strip_prefix('!') {
        Some(rest) => inner_pattern(alloc, rest),
        None => parse_pattern(alloc, word.as_bytes()).ok(),
    }
}

/// The reach of the texts of a row, numbered from 1.
fn reach_of(alloc: Global, texts: &str) -> Option<Reach> {
    let mut reach = Reach::empty(alloc).ok()?;
    for (at, text) in texts.split(" || ").enumerate() {
        let number = u32::try_from(at).ok()?.checked_add(1)?;
        if reach.has_text(number) || text.len() > 1_048_576 {
            return None;
        }
        let checked = checked_of(alloc, text.as_bytes())?.ok()?;
        reach.add_text(alloc, number, &checked).ok()?;
    }
    Some(reach)
}

/// Whether a question has its answer.
fn is_answered(alloc: Global, reach: &Reach, question: &str) -> Option<bool> {
    let (place, rest) = question.split_once(' ')?;
    let (text, block) = place.split_once('.')?;
    let (word, want) = rest.split_once(' ')?;
    let text = text.parse::<u32>().ok()?;
    let block = block.parse::<u32>().ok()?;
    let pattern = pattern_of(alloc, word)?;
    if !reach.has_block(text, block) {
        return None;
    }
    Some(reach.may_write(text, block, &pattern) == (want == "yes"))
}

/// Whether each question of a row has its answer.
fn holds(alloc: Global, row: &str) -> Option<bool> {
    let (texts, questions) = row.rsplit_once(" => ")?;
    let reach = reach_of(alloc, texts)?;
    for question in questions.split(", ") {
        if is_answered(alloc, &reach, question) != Some(true) {
            return Some(false);
        }
    }
    Some(true)
}

/// The first row that does not hold, or nothing.
fn first_wrong(alloc: Global) -> Option<&'static str> {
    for row in ROWS.lines() {
        if holds(alloc, row) != Some(true) {
            return Some(row);
        }
    }
    None
}

#[test]
fn blocks_may_write_what_their_texts_say(rt: HostRuntime) {
    assert_eq!(rt; first_wrong(rt.alloc()), None);
}
