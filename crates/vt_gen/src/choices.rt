//! Choices of workers.

ghost use Rattle.std.specs.Prelude.{◌≡◌, ◌≤◌, IfOk};
ghost use Rattle.vt_gen.specs.Choices.{choices_of};

use std::alloc::Global;
use vt_frac::NoMemory;
use vt_rand::Stream;

/// The first n words of the stream of the seed, each modulo `workers`. It fails only for want of memory.
pub fn choices_of(alloc: Global, seed: u64, n: u32, workers: u32) -> Result<Vec<u32>, NoMemory>
    requires some { 1 ≤ workers }
    requires few { workers ≤ 64 }
    ensures { IfOk result (λ choices. choices.items ≡ choices_of seed n workers) }
{
    let mut stream = Stream::from_seed(seed);
    let mut choices = Vec::new(alloc);
    for _k in 0..n {
        choices.push(stream.word() % workers)?;
    }
    Ok(choices)
}
