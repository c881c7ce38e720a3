//! The lines of a generated session. Each is added at the end of a text.

ghost use Rattle.std.specs.Prelude.{◌≡◌, ◌++◌, OnOk, codes, decimal};
ghost use Rattle.std.specs.List.{flat_map};
ghost use Rattle.vt_gen.specs.Session.{as_line, beats_line, eighths, loop_lines, lowest_note, player_lines, follower_lines};

use itoa::Buffer;
use vt_frac::NoMemory;

/// The line of the number of beats.
pub fn write_beats(text: &mut Vec<u8>, beats: u32) -> Result<(), NoMemory>
    ensures { OnOk result (text.new.items ≡ text.old.items ++ as_line (beats_line beats)) }
{
    write_numbered(text, b"# beats ", beats, b"")
}

/// The lines of the loop with this number, from 1, and this word.
pub fn write_loop(text: &mut Vec<u8>, number: u32, word: u32) -> Result<(), NoMemory>
    ensures { OnOk result (text.new.items ≡ text.old.items ++ flat_map as_line (loop_lines number word)) }
{
    if number % 2 == 1 {
        write_player(text, number, word)
    } else {
        write_follower(text, number)
    }
}

/// A loop that plays notes, sets a value and sleeps.
fn write_player(text: &mut Vec<u8>, number: u32, word: u32) -> Result<(), NoMemory>
    ensures { OnOk result (text.new.items ≡ text.old.items ++ flat_map as_line (player_lines number word)) }
{
    write_numbered(text, b"live_loop :l", number, b" do")?;
    write_numbered(text, b"  play ", lowest_note(word), b" + rand_i(12)")?;
    write_numbered(text, b"  set :s", number, b", tick")?;
    write_numbered(text, b"  sleep ", eighths(word), b" * 0.125")?;
    write_end(text)
}

/// A loop that waits for the one before it, and plays the value that it set.
fn write_follower(text: &mut Vec<u8>, number: u32) -> Result<(), NoMemory>
    ensures { OnOk result (text.new.items ≡ text.old.items ++ flat_map as_line (follower_lines number)) }
{
    let before = number.saturating_sub(1);
    write_numbered(text, b"live_loop :l", number, b" do")?;
    write_numbered(text, b"  sync :l", before, b"")?;
    write_numbered(text, b"  play get(:s", before, b")")?;
    write_end(text)
}

/// The last line of a loop.
fn write_end(text: &mut Vec<u8>) -> Result<(), NoMemory>
    ensures { OnOk result (text.new.items ≡ text.old.items ++ as_line (codes "end")) }
{
    text.extend_from_slice(b"end\n")?;
    Ok(())
}

/// A line with a number in it.
fn write_numbered(
    text: &mut Vec<u8>,
    before: &[u8],
    number: u32,
    after: &[u8],
) -> Result<(), NoMemory>
    ensures { OnOk result (text.new.items ≡ text.old.items ++ as_line (before.now ++ decimal number ++ after.now)) }
{
    let mut buffer = Buffer::new();
    text.extend_from_slice(before)?;
    text.extend_from_slice(buffer.format(number).as_bytes())?;
    text.extend_from_slice(after)?;
    text.push(b'\n')?;
    Ok(())
}

/// How many eighths of a beat a loop of this word sleeps.
fn eighths(word: u32) -> u32
    ensures { result ≡ eighths word }
{
    1 + word % 4
}

/// The lowest note that a loop of this word plays.
fn lowest_note(word: u32) -> u32
    ensures { result ≡ lowest_note word }
{
    40 + word / 4 % 40
}
