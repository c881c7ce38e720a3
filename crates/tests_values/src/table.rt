//! The tables of calls, notes, scales and chords.

use vt_table::{
    CALL_COUNT, CallName, CallRow, NameTable, Need, call_of, chord_of, note_of, scale_of,
};

/// Names, each with its row in a table of four, ` => ` and `none` where the table has it not.
const FOUND: &str = "\
abc => 2
 => 0
b => 3
a => none
abcd => none
ac => none
B => none
c => none
";

fn row_of_four(name: &[u8]) -> Option<u16> {
    let table: NameTable<4> = NameTable::of([b"", b"ab", b"abc", b"b"]);
    table.find(name)
}

fn row_of_one(name: &[u8]) -> Option<u16> {
    let table: NameTable<1> = NameTable::of([b"x"]);
    table.find(name)
}

fn is_found(row: &str) -> Option<bool> {
    let (name, want) = row.split_once(" => ")?;
    match row_of_four(name.as_bytes()) {
        Some(at) => Some(at == want.parse::<u16>().ok()?),
        None => Some(want == "none"),
    }
}

fn wrong_row() -> Option<&'static str> {
    for row in FOUND.lines() {
        if is_found(row) != Some(true) {
            return Some(row);
        }
    }
    None
}

#[test]
fn a_table_finds_its_names_and_no_others(rt: HostRuntime) {
    assert_eq!(rt; wrong_row(), None);
    assert!(rt; row_of_one(b"x") == Some(0) && row_of_one(b"y").is_none());
}

fn block_word(block: Need) -> &'static str {
    match block {
        Need::None => "no block",
        Need::Must => "a block",
        Need::May => "a block or none",
    }
}

fn dot_word(dot: bool) -> &'static str {
    if dot { "by a dot" } else { "alone" }
}

fn effect_word(effect: bool) -> &'static str {
    if effect { "effects" } else { "" }
}

/// Whether these are the least and the most count of arguments.
fn are_counts(row: CallRow, counts: &str) -> Option<bool> {
    let (least, most) = counts.split_once(" to ")?;
    Some(least.parse::<u8>().ok()? == row.least && most.parse::<u8>().ok()? == row.most)
}

/// Whether these words tell where a call stands and whether it has effects.
fn is_placed(row: CallRow, place: &str) -> bool {
    let (dot, effect) = place.split_once(", ").unwrap_or((place, ""));
    dot == dot_word(row.dot) && effect == effect_word(row.effect)
}

/// Whether the row of a call is this, in words.
fn is_row(row: CallRow, want: &str) -> Option<bool> {
    let (counts, rest) = want.split_once(", ")?;
    let (block, place) = rest.split_once(", ")?;
    Some(block == block_word(row.block) && is_placed(row, place) && are_counts(row, counts)?)
}

/// Whether a call has the row that is told of it; `none` where no call has the name.
fn call_holds(line: &str) -> Option<bool> {
    let (name, want) = line.split_once(": ")?;
    match call_of(name.as_bytes()) {
        Some(row) => is_row(row, want),
        None => Some(want == "none"),
    }
}

const CALLS: &str = "\
at: 1 to 2, a block, alone, effects
cue: 1 to 255, no block, alone, effects
current_bpm: 0 to 0, no block, alone, effects
define: 1 to 1, a block, alone, effects
density: 1 to 1, a block, alone, effects
each: 1 to 1, a block, by a dot, effects
get: 1 to 1, no block, alone, effects
in_thread: 0 to 0, a block, alone, effects
live_loop: 1 to 1, a block, alone, effects
look: 0 to 2, no block, by a dot, effects
loop: 0 to 0, a block, alone, effects
map: 1 to 1, a block, by a dot, effects
play: 1 to 1, no block, alone, effects
play_pattern: 1 to 1, no block, alone, effects
play_pattern_timed: 2 to 2, no block, alone, effects
print: 0 to 16, no block, alone, effects
puts: 0 to 16, no block, alone, effects
rt: 1 to 1, no block, alone, effects
set: 2 to 2, no block, alone, effects
sleep: 1 to 1, no block, alone, effects
stop: 0 to 0, no block, alone, effects
sync: 1 to 1, no block, alone, effects
tick: 0 to 2, no block, by a dot, effects
tick_reset: 0 to 1, no block, alone, effects
tick_set: 1 to 2, no block, alone, effects
times: 1 to 1, a block, by a dot, effects
use_synth_defaults: 0 to 0, no block, alone, effects
vt: 0 to 0, no block, alone, effects
with_fx: 1 to 1, a block, alone, effects
with_synth: 1 to 1, a block, alone, effects
abs: 1 to 1, no block, by a dot
bools: 0 to 255, no block, by a dot
chord: 2 to 2, no block, by a dot
chord_invert: 2 to 2, no block, by a dot
choose: 1 to 1, no block, by a dot
degree: 3 to 3, no block, by a dot
dice: 0 to 1, no block, by a dot
drop: 2 to 2, no block, by a dot
drop_last: 2 to 2, no block, by a dot
knit: 0 to 255, no block, by a dot
line: 2 to 2, no block, by a dot
max: 2 to 2, no block, by a dot
pick: 1 to 2, no block, by a dot
rand: 0 to 1, no block, by a dot
rand_i: 1 to 1, no block, by a dot
range: 2 to 3, no block, by a dot
ring: 0 to 255, no block, by a dot
rotate: 1 to 2, no block, by a dot
rrand_i: 2 to 2, no block, by a dot
shuffle: 1 to 1, no block, by a dot
: none
Play: none
plays: none
pla: none
if: none
zip: none
rand-i: none
";

/// The first row that does not hold, or nothing.
fn wrong_call() -> Option<&'static str> {
    for row in CALLS.lines() {
        if call_holds(row) != Some(true) {
            return Some(row);
        }
    }
    None
}

#[test]
fn calls_have_their_rows(rt: HostRuntime) {
    assert_eq!(rt; wrong_call(), None);
}

fn call_named(name: &[u8]) -> Option<CallName> {
    Some(CallName::of_number(call_of(name)?.number))
}

#[test]
fn calls_are_numbered_from_first_to_last(rt: HostRuntime) {
    assert!(rt; call_named(b"map") == Some(CallName::Map));
    assert_eq!(rt; CallName::Abs.number(), 0);
    assert_eq!(rt; CallName::WithSynth.number() as usize, CALL_COUNT - 1);
}

/// Each note of the fourth octave, which needs no number, and of octave 0; and other spellings.
const NOTES: &str = "\
c => 60
cs => 61
d => 62
ds => 63
e => 64
f => 65
fs => 66
g => 67
gs => 68
a => 69
as => 70
b => 71
c0 => 12
cs0 => 13
d0 => 14
ds0 => 15
e0 => 16
f0 => 17
fs0 => 18
g0 => 19
gs0 => 20
a0 => 21
as0 => 22
b0 => 23
c4 => 60
a4 => 69
e3 => 52
Fs5 => 78
b => 71
bb => 70
BB => 70
bs => 72
b4 => 71
bb3 => 58
eb => 63
cb => 59
cb0 => 11
es2 => 41
bs9 => 132
";

const NO_NOTES: &str = "|h|H4|c#|c10|cbb|cs10|c44|4|4c|r|rest|c |c-1|sb|c4s";

fn is_note(row: &str) -> Option<bool> {
    let (name, want) = row.split_once(" => ")?;
    Some(note_of(name.as_bytes())? == want.parse::<i64>().ok()?)
}

fn wrong_note() -> Option<&'static str> {
    for row in NOTES.lines() {
        if is_note(row) != Some(true) {
            return Some(row);
        }
    }
    None
}

/// The first name that is a note and should be none, or nothing.
fn wrong_no_note() -> Option<&'static str> {
    for name in NO_NOTES.split('|') {
        if note_of(name.as_bytes()).is_some() {
            return Some(name);
        }
    }
    None
}

#[test]
fn notes_have_their_midi_numbers(rt: HostRuntime) {
    assert_eq!(rt; wrong_note(), None);
    assert_eq!(rt; wrong_no_note(), None);
}

/// Whether these are the numbers; `none` where there are none.
fn are_steps(steps: Option<&[u8]>, want: &str) -> bool {
    match steps {
        Some(steps) => are_numbers(steps, want),
        None => want == "none",
    }
}

fn are_numbers(numbers: &[u8], want: &str) -> bool {
    let mut left = numbers;
    for word in want.split(' ') {
        match left.split_first() {
            Some((first, rest)) if word.parse::<u8>().ok() == Some(*first) => left = rest,
            _ => return false,
        }
    }
    left.is_empty()
}

fn scale_holds(row: &str) -> Option<bool> {
    let (name, want) = row.split_once(": ")?;
    Some(are_steps(scale_of(name.as_bytes()), want))
}

fn chord_holds(row: &str) -> Option<bool> {
    let (name, want) = row.split_once(": ")?;
    Some(are_steps(chord_of(name.as_bytes()), want))
}

const SCALES: &str = "\
major: 2 2 1 2 2 2 1
ionian: 2 2 1 2 2 2 1
minor: 2 1 2 2 1 2 2
aeolian: 2 1 2 2 1 2 2
harmonic_minor: 2 1 2 2 1 3 1
minor_pentatonic: 3 2 2 3 2
chromatic: 1 1 1 1 1 1 1 1 1 1 1 1
whole_tone: 2 2 2 2 2 2
melodic_minor: 2 1 2 2 2 2 1
hungarian_minor: 2 1 3 1 1 3 1
blues_major: 2 1 1 3 2 3
blues_minor: 3 2 1 1 3 2
augmented: 3 1 3 1 3 1
diminished: 1 2 1 2 1 2 1 2
: none
Major: none
majo: none
blues: none
";

const CHORDS: &str = "\
aug: 0 4 8
major7: 0 4 7 11
dom7: 0 4 7 10
m7: 0 3 7 10
minor7: 0 3 7 10
sus4: 0 5 7
major6: 0 4 7 9
minor6: 0 3 7 9
major9: 0 4 7 11 14
minor9: 0 3 7 10 14
dom9: 0 4 7 10 14
add9: 0 4 7 14
: none
Major: none
m9: none
";

fn wrong_scale() -> Option<&'static str> {
    for row in SCALES.lines() {
        if scale_holds(row) != Some(true) {
            return Some(row);
        }
    }
    None
}

fn wrong_chord() -> Option<&'static str> {
    for row in CHORDS.lines() {
        if chord_holds(row) != Some(true) {
            return Some(row);
        }
    }
    None
}

#[test]
fn scales_and_chords_have_their_half_tones(rt: HostRuntime) {
    assert_eq!(rt; wrong_scale(), None);
    assert_eq!(rt; wrong_chord(), None);
}
