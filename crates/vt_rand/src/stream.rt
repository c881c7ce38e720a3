//! Streams of random words.

ghost use Rattle.std.specs.Prelude.{◌≡◌, ◌+◌, ◌<◌, ◌≤◌, pos};
ghost use Rattle.vt_frac.specs.Fraction.{over};
ghost use Rattle.vt_rand.specs.Draw.{after_draws, below_of, child_seed_of, random_stream_of, unit_of};
ghost use Rattle.vt_rand.specs.Word.{word};

use rand_core::SeedableRng;
use rand_core::utils::NextWord;
use rand_pcg::Pcg32;
use std::marker::Model;
use vt_frac::Frac;

/// A stream of random words, each of 32 bits: `Pcg32` of the kit, made by `seed_from_u64`.
///
/// Contracts see it as its seed and the number of words drawn. That number counts modulo 2^64, which loses nothing,
/// since the words repeat after 2^64. Each word follows from these two alone, so a stream is the same in every run.
/// A clone is an equal stream and takes no memory. Streams are not for secrets.
#[derive(Clone, Debug, Drop)]
pub struct Stream {
    seed: u64,
    drawn: u64,
    generator: Pcg32,
}

impl Model for Stream {
    ghost use Rattle.std.specs.Prelude.{◌≡◌};
    ghost use Rattle.vt_rand.specs.Draw.{RandomStream};
    ghost use Rattle.vt_rand.specs.Word.{generator_after};

    ghost Value = { RandomStream };

    ghost view = { λ s. record { seed = s.seed; drawn = s.drawn } };

    ghost invariant = { λ s. s.generator ≡ generator_after s.seed s.drawn };
}

impl Stream {
    /// The stream of a seed, of which no word has been drawn.
    pub fn from_seed(seed: u64) -> Stream
        ensures { result ≡ random_stream_of seed }
    {
        Stream {
            seed,
            drawn: 0,
            generator: Pcg32::seed_from_u64(seed),
        }
    }

    /// Draws the next word.
    pub fn word(&mut self) -> u32
        ensures value { result ≡ word self.old.seed self.old.drawn }
        ensures drawn { self.new ≡ after_draws 1 self.old }
    {
        self.drawn = self.drawn.wrapping_add(1);
        self.generator.next_word()
    }

    /// Draws a word and gives `k/65536`, where k is its upper 16 bits: a fraction from 0 on and below 1.
    pub fn unit(&mut self) -> Frac
        ensures value { result ≡ unit_of (word self.old.seed self.old.drawn) }
        ensures drawn { self.new ≡ after_draws 1 self.old }
    {
        let upper = self.word() >> 16;
        parts_of_65536(upper as u16)
    }

    /// Draws a word and gives `floor(word * n / 2^32)`: one of the numbers 0 to `n - 1`.
    pub fn below(&mut self, n: u32) -> u32
        requires { 1 ≤ n }
        ensures value { result ≡ below_of (word self.old.seed self.old.drawn) n }
        ensures below { result < n }
        ensures drawn { self.new ≡ after_draws 1 self.old }
    {
        let word = self.word();
        scaled(word, n)
    }

    /// Draws two words and gives the seed of a child, `first * 2^32 + second`.
    pub fn child_seed(&mut self) -> u64
        ensures value { let first = word self.old.seed self.old.drawn in
            let second = word self.old.seed (self.old.drawn + 1) in
            result ≡ child_seed_of first second }
        ensures drawn { self.new ≡ after_draws 2 self.old }
    {
        let first = self.word();
        let second = self.word();
        (u64::from(first) << 32) | u64::from(second)
    }
}

/// `k/65536` in lowest terms, which always fits
fn parts_of_65536(k: u16) -> Frac
    ensures { result ≡ over (pos k) 65536 }
{
    match Frac::new(i64::from(k), 65536) {
        Ok(fraction) => fraction,
        Err(_) => unreachable!(),
    }
}

/// `floor(word * n / 2^32)`
fn scaled(word: u32, n: u32) -> u32
    requires { 1 ≤ n }
    ensures value { result ≡ below_of word n }
    ensures below { result < n }
{
    ((u64::from(word) * u64::from(n)) >> 32) as u32
}
