//! Generated sessions.

ghost use Rattle.std.specs.Prelude.{◌≡◌, ◌≤◌, IfOk};
ghost use Rattle.vt_gen.specs.Session.{session_text_of};

use crate::lines::{write_beats, write_loop};
use std::alloc::Global;
use vt_frac::NoMemory;
use vt_rand::Stream;

/// A session of so many live loops, made of the words of the seed. Its first line says a number of beats.
/// It fails only for want of memory.
pub fn session_text(alloc: Global, seed: u64, loops: u32, beats: u32) -> Result<Vec<u8>, NoMemory>
    requires some_loops { 1 ≤ loops }
    requires few_loops { loops ≤ 64 }
    requires some_beats { 1 ≤ beats }
    requires few_beats { beats ≤ 1024 }
    ensures { IfOk result (λ text. text.items ≡ session_text_of seed loops beats) }
{
    let mut stream = Stream::from_seed(seed);
    let mut text = Vec::new(alloc);
    write_beats(&mut text, beats)?;
    for i in 0..loops {
        write_loop(&mut text, i + 1, stream.word())?;
    }
    Ok(text)
}
