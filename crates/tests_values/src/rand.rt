//! Random streams against words that other programs gave.

use rand_core::utils::NextWord;
use rand_pcg::Pcg32;
use vt_frac::Frac;
use vt_rand::{Stream, draws_add_up, words_fit, words_repeat};

/// The demo output that the reference C code of PCG publishes for pcg32 at state 42 and sequence 54.
const PUBLISHED: &str = "a15c02b7 7b47f409 ba1d3330 83d2f293 bfa4784b cbed606e";

/// Whether a word is the one that is written so, in hexadecimal.
fn is_word(word: u32, want: &str) -> bool {
    Some(word) == u32::from_str_radix(want, 16).ok()
}

/// Whether these are the words that come next.
fn are_published(generator: &mut Pcg32, words: &str) -> bool {
    for word in words.split(' ') {
        if !is_word(generator.next_word(), word) {
            return false;
        }
    }
    true
}

#[test]
fn the_generator_has_its_published_words(rt: HostRuntime) {
    assert!(rt; are_published(&mut Pcg32::new(42, 54), PUBLISHED));
}

#[test]
fn the_laws_of_streams_are_there() {
    words_fit();
    words_repeat();
    draws_add_up();
}

/// The first words of four seeds, computed by bench/pcg_words from the published definitions of PCG and of rand_core's
/// seeding.
const WORDS: &str = "\
0: 11cdd903 fc843fd7 140833d3 3efaaf3e 3f353b9b 605eec85 1de85c8e aab5ec0e 035f39c0 8cceaa3e 24c37cb1 06f7569c ae0d49a5 7604bcee 3ca718ae 3fc6d821 ecf3eda1 1add3a12 c2a98d63 766c6f06 7446ae0f b96f372c 88f25f13 cc555ad7 66b97ee4 fbe7f736 af3ca839 6a251f82 1c7f0fce bdff5b5a facac907 ddea798e
1: 33a70be6 7dbcf3ee cadf4751 11ac71c0 f8ffee3b 291f2ee8 ddacaf38 1a565dc0 dbda25d4 0d2ec398 6436ee23 4bd6aad4 c0bbde57 02316562 4cd79bb5 d74af6e4 0615664e 3d32d603 6615b6b5 8bad4e55 1a75ed10 19a9eaff 9a5b1657 3dd2bbc7 5385b47f bcda556b f8d7e7b2 7ac03701 cc103a7f 9c74c135 e0a073fb 30d4041b
42: caa87230 c7a95d44 1eb4d0ae fbcfed44 5cc0ffbe a587db8d d86f37d2 536d786f eaefe5db 3fd19dd3 26362fd9 810fe533 5d992b15 6c922b9c 12ce14c1 dec9a651 8ec051b4 1504f8e3 d3c60dc4 0d9476b8 8d6ab576 673b3cc6 7da6e264 86947821 08d371f5 3da5b9b3 8c011d74 36e312b7 05eda192 399420c4 91ca9161 88ba3685
18446744073709551615: 982f997e 513da686 e017d20c c8ade03d 8a7924ca 3e097bc0 6921eb3d 3a22b6ed aadae43a 7d94eb98 b3450327 f2104ae1 18e1f034 382bd571 18b4fb6e 03ea3641 0067ce31 dd69c231 4d73bade dcf6f450 07c3f7c7 74438ab3 acfff6ea 0db6af85 d378ce5f deed09e8 c6894e32 6c3ef5a5 b3b463c3 12b1e14d 08f7fc39 96a29e02
";

/// Whether these are the words that come next.
fn are_words(stream: &mut Stream, words: &str) -> bool {
    for word in words.split(' ') {
        if !is_word(stream.word(), word) {
            return false;
        }
    }
    true
}

/// Whether the words of the seed of a row are those that the row has.
fn has_words(row: &str) -> Option<bool> {
    let (seed, words) = row.split_once(": ")?;
    let mut stream = Stream::from_seed(seed.parse::<u64>().ok()?);
    Some(are_words(&mut stream, words))
}

/// The first row that does not hold, or nothing.
fn wrong_words() -> Option<&'static str> {
    for row in WORDS.lines() {
        if has_words(row) != Some(true) {
            return Some(row);
        }
    }
    None
}

#[test]
fn words_are_those_of_an_independent_program(rt: HostRuntime) {
    assert_eq!(rt; wrong_words(), None);
}

/// A thread of seed 0 starts two children: words 1 and 2 are the seed of the first, words 3 and 4 of the second. The
/// draws of each child are k/65536, with k computed by bench/pcg_words.
const CHILDREN: &str = "\
11cdd903fc843fd7: 15994 49698 60972 20563
140833d33efaaf3e: 38231 56824 8629 58086
";

/// Whether a draw is so many parts of 65,536.
fn is_unit(unit: Frac, parts: &str) -> Option<bool> {
    Some(unit == Frac::new(parts.parse::<i64>().ok()?, 65536).ok()?)
}

/// Whether these are the draws that come next.
fn are_units(stream: &mut Stream, uppers: &str) -> bool {
    for upper in uppers.split(' ') {
        if is_unit(stream.unit(), upper) != Some(true) {
            return false;
        }
    }
    true
}

/// Whether the next child has the seed of a row, and its draws are those that the row has.
fn has_child(parent: &mut Stream, row: &str) -> Option<bool> {
    let (want, uppers) = row.split_once(": ")?;
    let seed = parent.child_seed();
    let is_seed = Some(seed) == u64::from_str_radix(want, 16).ok();
    Some(is_seed && are_units(&mut Stream::from_seed(seed), uppers))
}

/// The first row that does not hold of the children of this stream, or nothing.
fn wrong_child(parent: &mut Stream) -> Option<&'static str> {
    for row in CHILDREN.lines() {
        if has_child(parent, row) != Some(true) {
            return Some(row);
        }
    }
    None
}

#[test]
fn children_have_seeds_of_two_words_each(rt: HostRuntime) {
    assert_eq!(rt; wrong_child(&mut Stream::from_seed(0)), None);
}

/// Twelve draws of seed 42 below each number, computed by bench/pcg_words.
const DRAWS: &str = "\
1: 0 0 0 0 0 0 0 0 0 0 0 0
6: 4 4 0 5 2 3 5 1 5 1 0 3
12: 9 9 1 11 4 7 10 3 11 2 1 6
1000: 791 779 119 983 362 646 845 325 917 249 149 504
4294967295: 3400036911 3349765443 515166381 4224707907 1556152253 2777144204 3631167441 1399683182 3941590490 1070702034 641085400 2165302578
";

/// Whether these are the draws below a number that come next.
fn are_below(stream: &mut Stream, n: u32, draws: &str) -> bool {
    for draw in draws.split(' ') {
        if n == 0 || draw.parse::<u32>().ok() != Some(stream.below(n)) {
            return false;
        }
    }
    true
}

/// Whether a clone of seed 42 draws the numbers of a row below the number of the row.
fn has_draws(row: &str) -> Option<bool> {
    let (n, draws) = row.split_once(": ")?;
    let n = n.parse::<u32>().ok()?;
    let mut stream = Stream::from_seed(42).clone().ok()?;
    Some(are_below(&mut stream, n, draws))
}

/// The first row that does not hold, or nothing.
fn wrong_draws() -> Option<&'static str> {
    for row in DRAWS.lines() {
        if has_draws(row) != Some(true) {
            return Some(row);
        }
    }
    None
}

#[test]
fn draws_below_a_number_scale_the_word(rt: HostRuntime) {
    assert_eq!(rt; wrong_draws(), None);
}
