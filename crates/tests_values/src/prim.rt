//! The pure and random calls: their values, edges and faults, and the words that they draw.

use crate::answers::is_told;
use crate::reader::{Arguments, arguments_of};
use std::alloc::Global;
use vt_prim::call;
use vt_rand::Stream;
use vt_table::call_of;

/// The first words of seed 42 (bench/pcg_words).
const WORDS: [u32; 6] = [
    0xcaa87230, 0xc7a95d44, 0x1eb4d0ae, 0xfbcfed44, 0x5cc0ffbe, 0xa587db8d,
];

/// The word of seed 42 behind those that a row draws.
fn next_word(draws: &str) -> Option<u32> {
    let drawn = draws.strip_suffix(" of seed 42")?;
    WORDS.get(drawn.parse::<usize>().ok()?).copied()
}

/// Whether a pure or random call gives what its row says, and leaves this word as the next of seed 42.
fn gives(alloc: Global, name: &str, arguments: &Arguments, want: &str, next: u32) -> Option<bool> {
    let row = call_of(name.as_bytes())?;
    if row.effect {
        return None;
    }
    let args = arguments.values.as_slice();
    let options = arguments.options.as_slice();
    let mut stream = Stream::from_seed(42);
    let outcome = call(alloc, row.number, args, options, &mut stream);
    Some(is_told(alloc, &outcome, want) && stream.word() == next)
}

/// Whether the call of a row gives what the row says. Where it says nothing of words, none is drawn.
fn holds(alloc: Global, row: &str) -> Option<bool> {
    let (call, answer) = row.split_once(" => ")?;
    let (want, draws) = answer
        .split_once(" drawing ")
        .unwrap_or((answer, "0 of seed 42"));
    let next = next_word(draws)?;
    let (name, arguments) = call.split_once(' ').unwrap_or((call, ""));
    let arguments = arguments_of(alloc, arguments)?;
    gives(alloc, name, &arguments, want, next)
}

/// The first row that does not hold, or nothing.
fn first_wrong(alloc: Global, rows: &str) -> Option<&str> {
    for row in rows.lines() {
        if holds(alloc, row) != Some(true) {
            return Some(row);
        }
    }
    None
}

const NUMBERS: &str = "\
min 3, 2 => 2
min 1, 1/1 => 1
min 1/1, 1 => 1/1
min 1, nil => wrong_kind
min 1 => wrong_count
max 3, 2 => 3
max 1/1, 1 => 1/1
max :a, 1 => wrong_kind
abs -7 => 7
abs -7/2 => 7/2
abs \"a\" => wrong_kind
inc 1/2 => 3/2
inc 9223372036854775807 => overflow
inc [] => wrong_kind
dec 0 => -1
dec -9223372036854775807 => overflow
dec \"a\" => wrong_kind
floor -5/2 => -3
floor 7 => 7
floor nil => wrong_kind
ceil -5/2 => -2
ceil 5/2 => 3
ceil => wrong_count
round 5/2 => 3
round -5/2 => -2
round 7/3 => 2
round 4611686018427387904 => overflow
round true => wrong_kind
even -4 => true
even 3 => false
even 2/1 => wrong_kind
odd -3 => true
odd 0 => false
odd nil => wrong_kind
";

#[test]
fn calls_on_numbers(rt: HostRuntime) {
    assert_eq!(rt; first_wrong(rt.alloc(), NUMBERS), None);
}

const COUNTS: &str = "\
length [1, 2, 3] => 3
length [] => 0
length 1 => wrong_kind
size [1, 2] => 2
size [] => 0
size \"ab\" => wrong_kind
count [7] => 1
count [] => 0
count nil => wrong_kind
sum [1, 2, 3] => 6
sum [] => 0
sum [1, 1/1] => 2/1
sum [9223372036854775807, 1] => overflow
sum [9223372036854775807, 1, nil] => wrong_kind
sum 1 => wrong_kind
sort [3, 1, 2] => [1, 2, 3]
sort [] => []
sort [1, 1/1, 0, 1] => [0, 1, 1/1, 1]
sort [2, 1/2, -1] => [-1, 1/2, 2]
sort [2, 1, nil] => wrong_kind
first [7, 8] => 7
first [] => empty_ring
first :a => wrong_kind
last [7, 8] => 8
last [] => empty_ring
last 1 => wrong_kind
";

#[test]
fn calls_that_count_and_sort(rt: HostRuntime) {
    assert_eq!(rt; first_wrong(rt.alloc(), COUNTS), None);
}

const NOTES: &str = "\
note :c4 => 60
note :Fs5 => 78
note 121/2 => 121/2
note :rest => bad_note
note nil => wrong_kind
scale :c, :major => [60, 62, 64, 65, 67, 69, 71, 72]
scale 1/2, :whole_tone => [1/2, 5/2, 9/2, 13/2, 17/2, 21/2, 25/2]
scale 9223372036854775807, :major => overflow
scale :h, :none => bad_note
scale 60, :none => bad_value
scale :h, 1 => wrong_kind
chord :c, :major7 => [60, 64, 67, 71]
chord 50, :m7 => [50, 53, 57, 60]
chord 9223372036854775807, :dim => overflow
chord 60, :major9 => [60, 64, 67, 71, 74]
chord 60, :major11 => bad_value
chord :h, :none => bad_note
octs :c, 3 => [60, 72, 84]
octs 60, 1 => [60]
octs 60, 0 => bad_value
octs 0, 32 => [0, 12, 24, 36, 48, 60, 72, 84, 96, 108, 120, 132, 144, 156, 168, 180, 192, 204, 216, 228, 240, 252, 264, 276, 288, 300, 312, 324, 336, 348, 360, 372]
octs 60, 33 => bad_value
octs :h, 0 => bad_note
octs :h, 1/1 => wrong_kind
degree 1, :c4, :major => 60
degree 3, :c4, :major => 64
degree 8, :c4, :major => 72
degree 64, :c4, :major => 168
degree 7, 60, :minor_pentatonic => 75
degree 9, 1/2, :major_pentatonic => 39/2
degree 0, 60, :major => bad_value
degree 65, :h, :major => bad_value
degree 64, :h, :none => bad_note
degree 1, 60, :none => bad_value
degree 0, :h, 1 => wrong_kind
degree 0, nil, :none => wrong_kind
degree 1/1, 60, :major => wrong_kind
degree 1, 60 => wrong_count
degree 1, 9223372036854775807, :major => 9223372036854775807
degree 2, 9223372036854775807, :major => overflow
chord_invert [60, 64, 67], 0 => [60, 64, 67]
chord_invert [60, 64, 67], 1 => [64, 67, 72]
chord_invert [60, 64, 67], 3 => [72, 76, 79]
chord_invert [60, 64, 67], 4 => [76, 79, 84]
chord_invert [60, 64, 67], 64 => [316, 319, 324]
chord_invert [1/2, 1], 1 => [1, 25/2]
chord_invert [], 64 => []
chord_invert [60], -1 => bad_value
chord_invert [60], 65 => bad_value
chord_invert [60, nil], 65 => wrong_kind
chord_invert [60], 1/1 => wrong_kind
chord_invert 60, 1 => wrong_kind
chord_invert [0, 9223372036854775807], 1 => [9223372036854775807, 12]
chord_invert [0, 9223372036854775807], 2 => overflow
";

#[test]
fn calls_on_notes(rt: HostRuntime) {
    assert_eq!(rt; first_wrong(rt.alloc(), NOTES), None);
}

const MADE: &str = "\
ring 1, nil, :a => [1, nil, :a]
ring => []
ring [1, 2] => [1, 2]
ring [1], [] => [[1], []]
ring 5/1 => [5/1]
knit :a, 2, :b, 1 => [:a, :a, :b]
knit => []
knit :a => wrong_count
knit :a, -1, :b, nil => wrong_kind
knit :a, 4097, :b, -1 => bad_value
knit :a, 4097 => too_large
bools 1, 0, -3 => [true, false, true]
bools => []
bools 1, true => wrong_kind
range 1, 4 => [1, 2, 3]
range 4, 1 => [4, 3, 2]
range 0, 1, 1/2 => [0/1, 1/2]
range 0, 4, 2 => [0, 2]
range 0/1, 1 => [0/1]
range 1, 1 => []
range -9223372036854775807, 9223372036854775807, 0 => bad_value
range -9223372036854775807, 9223372036854775807 => overflow
range 0, 5000 => too_large
range 0, 1, nil => wrong_kind
line 0, 1 => [0/1, 1/4, 1/2, 3/4]
line 1, 1 => [1/1, 1/1, 1/1, 1/1]
line -9223372036854775807, 9223372036854775807 => overflow
line 0, nil => wrong_kind
spread 3, 4 => [true, false, true, true]
spread 0, 1 => [false]
spread 2, 1 => bad_value
spread 0, 0 => bad_value
spread 9, 1/1 => wrong_kind
";

#[test]
fn calls_that_make_rings(rt: HostRuntime) {
    assert_eq!(rt; first_wrong(rt.alloc(), MADE), None);
}

const PARTS: &str = "\
take [1, 2, 3], 2 => [1, 2]
take [1], 5 => [1]
take [1], -1 => bad_value
take 1, -1 => wrong_kind
drop [1, 2, 3], 2 => [3]
drop [1], 5 => []
drop [], -1 => bad_value
take_last [1, 2, 3], 2 => [2, 3]
take_last [1], 5 => [1]
take_last [1], -1 => bad_value
drop_last [1, 2, 3], 2 => [1]
drop_last [1], 5 => []
drop_last [1], 1/1 => wrong_kind
butlast [1, 2] => [1]
butlast [] => []
butlast nil => wrong_kind
reverse [1, 2, 3] => [3, 2, 1]
reverse [] => []
reverse \"ab\" => wrong_kind
mirror [1, 2] => [1, 2, 2, 1]
mirror [] => []
mirror 1 => wrong_kind
reflect [1, 2, 3] => [1, 2, 3, 2, 1]
reflect [] => []
reflect nil => wrong_kind
rotate [1, 2, 3] => [2, 3, 1]
rotate [1, 2, 3], -1 => [3, 1, 2]
rotate [], 9223372036854775807 => []
rotate [1, 2], 9223372036854775807 => overflow
rotate [1], nil => wrong_kind
stretch [1, 2], 2 => [1, 1, 2, 2]
stretch [1], -1 => bad_value
stretch [1], 4097 => too_large
repeat [1, 2], 2 => [1, 2, 1, 2]
repeat [1], -1 => bad_value
repeat [1], 4097 => too_large
";

#[test]
fn calls_on_parts_of_rings(rt: HostRuntime) {
    assert_eq!(rt; first_wrong(rt.alloc(), PARTS), None);
}

const OPTIONS: &str = "\
scale 0, :minor_pentatonic, num_octaves: 2 => [0, 3, 5, 7, 10, 12, 15, 17, 19, 22, 24]
scale 0, :minor_pentatonic, num_octaves: 16 => [0, 3, 5, 7, 10, 12, 15, 17, 19, 22, 24, 27, 29, 31, 34, 36, 39, 41, 43, 46, 48, 51, 53, 55, 58, 60, 63, 65, 67, 70, 72, 75, 77, 79, 82, 84, 87, 89, 91, 94, 96, 99, 101, 103, 106, 108, 111, 113, 115, 118, 120, 123, 125, 127, 130, 132, 135, 137, 139, 142, 144, 147, 149, 151, 154, 156, 159, 161, 163, 166, 168, 171, 173, 175, 178, 180, 183, 185, 187, 190, 192]
scale 0, :major, num_octaves: 17 => bad_value
scale 0, :none, num_octaves: nil => wrong_kind
scale :h, :major, num_octaves: 0 => bad_note
range 0, 3, step: 2 => [0, 2]
range 0, 1, step: 1/2 => [0/1, 1/2]
range nil, 1, 1, step: 1 => wrong_count
range 0, 1, step: 0 => bad_value
line 0, 1, steps: 2 => [0/1, 1/2]
line -9223372036854775807, 9223372036854775807, steps: 0 => bad_value
line nil, 1, steps: 4097 => wrong_kind
";

#[test]
fn options_and_their_faults(rt: HostRuntime) {
    assert_eq!(rt; first_wrong(rt.alloc(), OPTIONS), None);
}

// The values, and how many words are drawn, by bench/random_calls; the faults by hand.
const DRAWS: &str = "\
rand => 6485/8192 drawing 1 of seed 42
rand 2 => 6485/4096 drawing 1 of seed 42
rand 1/3 => 6485/24576 drawing 1 of seed 42
rand 1/9223372036854775807 => overflow drawing 1 of seed 42
rand nil => wrong_kind drawing 0 of seed 42
rand_i 12 => 9 drawing 1 of seed 42
rand_i 1 => 0 drawing 1 of seed 42
rand_i 4294967295 => 3400036911 drawing 1 of seed 42
rand_i 4294967296 => bad_value drawing 0 of seed 42
rand_i 1/1 => wrong_kind drawing 0 of seed 42
rrand 1, 2 => 14677/8192 drawing 1 of seed 42
rrand 1/2, -3 => -37203/16384 drawing 1 of seed 42
rrand -9223372036854775807, 9223372036854775807 => overflow drawing 1 of seed 42
rrand 1, nil => wrong_kind drawing 0 of seed 42
rrand_i 1, 6 => 5 drawing 1 of seed 42
rrand_i -5, -5 => -5 drawing 1 of seed 42
rrand_i -3, 4294967291 => 3400036908 drawing 1 of seed 42
rrand_i -3, 4294967292 => bad_value drawing 0 of seed 42
rrand_i 2, 1 => bad_value drawing 0 of seed 42
dice => 5 drawing 1 of seed 42
dice 20 => 16 drawing 1 of seed 42
dice 0 => bad_value drawing 0 of seed 42
one_in 1 => true drawing 1 of seed 42
one_in 2 => false drawing 1 of seed 42
one_in -1 => bad_value drawing 0 of seed 42
choose [7, 8, 9] => 9 drawing 1 of seed 42
choose [7] => 7 drawing 1 of seed 42
choose [] => empty_ring drawing 0 of seed 42
choose nil => wrong_kind drawing 0 of seed 42
pick [7, 8, 9] => [9] drawing 1 of seed 42
pick [7, 8, 9], 5 => [9, 9, 7, 9, 8] drawing 5 of seed 42
pick [7], 0 => [] drawing 0 of seed 42
pick [], 0 => [] drawing 0 of seed 42
pick [], 5000 => empty_ring drawing 0 of seed 42
pick [], -1 => bad_value drawing 0 of seed 42
pick [7], 4097 => bad_value drawing 0 of seed 42
pick [], nil => wrong_kind drawing 0 of seed 42
shuffle [1, 2, 3, 4, 5] => [3, 2, 1, 5, 4] drawing 4 of seed 42
shuffle [1] => [1] drawing 0 of seed 42
shuffle [] => [] drawing 0 of seed 42
shuffle 1 => wrong_kind drawing 0 of seed 42
";

#[test]
fn random_calls_draw_the_words_of_their_seed(rt: HostRuntime) {
    assert_eq!(rt; first_wrong(rt.alloc(), DRAWS), None);
}
