//! Reading to the end or just past the limit, and writing a whole text.
ghost use Rattle.std.specs.Prelude.{◌≡◌, ◌≤◌, ◌<◌, ◌+◌, length, IfOk, IfSome, OnOk, OnErr, IsErrOf, Some};
ghost use Rattle.std.specs.Io.KnownBytes.{Appends};
ghost use Rattle.vt_io.specs.Faults.{HasCause, Rose};
ghost use Rattle.vt_cli.specs.Reading.{limit, part_read, part_left, ReadsNoFurther};
ghost use Rattle.vt_cli.specs.Ending.{AppendsPart};
ghost use Rattle.vt_cli.specs.declared.transfer.ReadError.TheVariants.{NoMemory};

use std::alloc::{AllocError, Global};
use thiserror::Error;
use vt_frac::NoMemory;
use vt_io::{Failed, Sink, Source};

/// The most bytes that an input may have.
pub const LIMIT: usize = 1_048_576;

/// How many bytes are read at a time.
const BLOCK: usize = 4096;

/// Why an input was not read.
#[derive(Clone, Copy, Debug, PartialEq, Eq, Error)]
pub enum ReadError {
    #[error("a read failed")]
    Failed,
    #[error("out of memory")]
    NoMemory,
}

impl From<NoMemory> for ReadError {
    ghost from_gives = { λ _ e. e ≡ NoMemory };

    fn from(_: NoMemory) -> ReadError {
        ReadError::NoMemory
    }
}

impl From<AllocError> for ReadError {
    ghost from_gives = { λ _ e. e ≡ NoMemory };

    fn from(_: AllocError) -> ReadError {
        ReadError::NoMemory
    }
}

/// All that a source has left, or one byte more than the limit where there are more.
pub fn read_all<S: Source>(alloc: Global, src: &mut S) -> Result<Vec<u8>, ReadError>
    ensures length { IfOk result (λ bytes. length bytes.items ≤ limit + 1) }
    ensures bytes { IfOk result (λ bytes. IfSome (S.left src.old) (λ input. bytes.items ≡ part_read input)) }
    ensures rest { OnOk result (IfSome (S.left src.old) (λ input. S.left src.new ≡ Some (part_left input))) }
    ensures no_further { IfSome (S.left src.old) (λ input. ReadsNoFurther input (S.left src.new)) }
    ensures later { S.faults src.old ≤ S.faults src.new }
    ensures failed { IsErrOf result ReadError.Failed → Rose (S.faults src.old) (S.faults src.new) }
{
    let mut bytes = Vec::new(alloc);
    let mut block = [0u8; BLOCK];
    'fill: while bytes.len() <= LIMIT {
        let want = (LIMIT + 1 - bytes.len()).min(BLOCK);
        match src.read(&mut block[..want]) {
            Ok(count) => {
                if count == 0 {
                    return Ok(bytes);
                }
                bytes.extend_from_slice(&block[..count])?
            }
            Err(_) => return Err(ReadError::Failed),
        }
    }
    Ok(bytes)
}

/// Writes a text. It takes no memory.
pub fn write_all<K: Sink>(out: &mut K, text: &[u8]) -> Result<(), Failed>
    ensures all { OnOk result (Appends (K.taken out.old) (K.taken out.new) text.now) }
    ensures part { OnErr result (AppendsPart (K.taken out.old) (K.taken out.new) text.now) }
    ensures cause { HasCause (K.faults out.old) (K.faults out.new) result }
{
    let mut at = 0;
    'put: while at < text.len() {
        match out.write(&text[at..]) {
            Ok(count) => at += count,
            Err(_) => return Err(Failed),
        }
    }
    Ok(())
}
