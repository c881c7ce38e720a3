//! What is drawn from a stream.

ghost use Rattle.std.specs.Prelude.{◌≡◌, ◌<◌, ◌≤◌, length};
ghost use Rattle.vt_rand.specs.Draw.{below_of, unit_of};
ghost use Rattle.vt_ring.specs.RandomCalls.{chosen};
ghost use Rattle.vt_ring.specs.Streams.{moved_on, words_from};

use vt_frac::Frac;
use vt_rand::Stream;
use vt_value::Value;

/// The next word.
pub(crate) fn next_word(stream: &mut Stream) -> u32
    ensures value { result ≡ words_from stream.old 0 }
    ensures drawn { stream.new ≡ moved_on 1 stream.old }
{
    stream.word()
}

/// What the next word makes of one whole: a fraction from 0 on and below 1.
pub(crate) fn next_unit(stream: &mut Stream) -> Frac
    ensures value { result ≡ unit_of (words_from stream.old 0) }
    ensures drawn { stream.new ≡ moved_on 1 stream.old }
{
    stream.unit()
}

/// One of the numbers below `bound`, by the next word.
pub(crate) fn next_below(stream: &mut Stream, bound: u32) -> u32
    requires { 1 ≤ bound }
    ensures value { result ≡ below_of (words_from stream.old 0) bound }
    ensures below { result < bound }
    ensures drawn { stream.new ≡ moved_on 1 stream.old }
{
    stream.below(bound)
}

/// The item that a word chooses.
pub(crate) fn chosen(items: &[Value], word: u32) -> &Value
    requires { 0 < length items.now }
    ensures { result.now ≡ chosen items.now word }
{
    let at = place_below(items.len(), word);
    match items.get(at) {
        Some(item) => item,
        None => unreachable!(),
    }
}

/// One of the places below a length, by a word.
#[tactic(auto, unfolding(vt_rand::specs::Draw::below_of))]
fn place_below(length: usize, word: u32) -> usize
    requires { 0 < length }
    ensures value { result ≡ below_of word length }
    ensures below { result < length }
{
    ((u128::from(word) * length as u128) >> 32) as usize
}

/// An equal stream.
pub(crate) fn copy_of(stream: &Stream) -> Stream
    ensures { result ≡ stream.now }
{
    match stream.clone() {
        Ok(copy) => copy,
        Err(_) => unreachable!(),
    }
}
