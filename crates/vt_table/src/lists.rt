//! Scales and chords by name.

ghost use Rattle.std.specs.Prelude.{◌≡◌, ◌↔◌, ◌<◌, Contains, IsNone, Some};
ghost use Rattle.std.specs.Option.{option_copied};
ghost use Rattle.vt_table.specs.Lists.{chords, chord_intervals, list_at, names_of, scales, scale_steps};

use crate::names::{NameTable, Named};

/// The steps of a scale, in half tones. None exactly where no scale has the name.
pub fn scale_of(name: &[u8]) -> Option<&'static [u8]>
    ensures value { option_copied result ≡ scale_steps name.now }
    ensures none { IsNone result ↔ ¬ Contains (names_of scales) name.now }
{
    let row = scale_names().find(name)?;
    Some(scale_at(row))
}

/// The intervals of a chord above its tonic, in half tones. None exactly where no chord has the name.
pub fn chord_of(name: &[u8]) -> Option<&'static [u8]>
    ensures value { option_copied result ≡ chord_intervals name.now }
    ensures none { IsNone result ↔ ¬ Contains (names_of chords) name.now }
{
    let row = chord_names().find(name)?;
    Some(chord_at(row))
}

/// A name and the numbers that it stands for.
#[derive(Clone, Copy)]
struct Listed(&'static [u8], &'static [u8]);

impl Named for Listed {
    ghost name_of = { λ listed. listed.0.now };

    fn name(&self) -> &[u8] {
        self.0
    }
}

fn scale_names() -> NameTable<SCALE_COUNT, Listed>
    ensures { result ≡ names_of scales }
{
    NameTable::of(SCALES)
}

fn scale_at(row: u16) -> &'static [u8]
    requires { row < SCALE_COUNT }
    ensures { list_at scales row ≡ Some result.now }
{
    SCALES[row as usize].1
}

fn chord_names() -> NameTable<CHORD_COUNT, Listed>
    ensures { result ≡ names_of chords }
{
    NameTable::of(CHORDS)
}

fn chord_at(row: u16) -> &'static [u8]
    requires { row < CHORD_COUNT }
    ensures { list_at chords row ≡ Some result.now }
{
    CHORDS[row as usize].1
}

const SCALE_COUNT: usize = 20;

static SCALES: [Listed; SCALE_COUNT] = [
    Listed(b"aeolian", &[2, 1, 2, 2, 1, 2, 2]),
    Listed(b"augmented", &[3, 1, 3, 1, 3, 1]),
    Listed(b"blues_major", &[2, 1, 1, 3, 2, 3]),
    Listed(b"blues_minor", &[3, 2, 1, 1, 3, 2]),
    Listed(b"chromatic", &[1, 1, 1, 1, 1, 1, 1, 1, 1, 1, 1, 1]),
    Listed(b"diminished", &[1, 2, 1, 2, 1, 2, 1, 2]),
    Listed(b"dorian", &[2, 1, 2, 2, 2, 1, 2]),
    Listed(b"harmonic_minor", &[2, 1, 2, 2, 1, 3, 1]),
    Listed(b"hungarian_minor", &[2, 1, 3, 1, 1, 3, 1]),
    Listed(b"ionian", &[2, 2, 1, 2, 2, 2, 1]),
    Listed(b"locrian", &[1, 2, 2, 1, 2, 2, 2]),
    Listed(b"lydian", &[2, 2, 2, 1, 2, 2, 1]),
    Listed(b"major", &[2, 2, 1, 2, 2, 2, 1]),
    Listed(b"major_pentatonic", &[2, 2, 3, 2, 3]),
    Listed(b"melodic_minor", &[2, 1, 2, 2, 2, 2, 1]),
    Listed(b"minor", &[2, 1, 2, 2, 1, 2, 2]),
    Listed(b"minor_pentatonic", &[3, 2, 2, 3, 2]),
    Listed(b"mixolydian", &[2, 2, 1, 2, 2, 1, 2]),
    Listed(b"phrygian", &[1, 2, 2, 2, 1, 2, 2]),
    Listed(b"whole_tone", &[2, 2, 2, 2, 2, 2]),
];

const CHORD_COUNT: usize = 17;

static CHORDS: [Listed; CHORD_COUNT] = [
    Listed(b"add9", &[0, 4, 7, 14]),
    Listed(b"aug", &[0, 4, 8]),
    Listed(b"dim", &[0, 3, 6]),
    Listed(b"dim7", &[0, 3, 6, 9]),
    Listed(b"dom7", &[0, 4, 7, 10]),
    Listed(b"dom9", &[0, 4, 7, 10, 14]),
    Listed(b"m7", &[0, 3, 7, 10]),
    Listed(b"major", &[0, 4, 7]),
    Listed(b"major6", &[0, 4, 7, 9]),
    Listed(b"major7", &[0, 4, 7, 11]),
    Listed(b"major9", &[0, 4, 7, 11, 14]),
    Listed(b"minor", &[0, 3, 7]),
    Listed(b"minor6", &[0, 3, 7, 9]),
    Listed(b"minor7", &[0, 3, 7, 10]),
    Listed(b"minor9", &[0, 3, 7, 10, 14]),
    Listed(b"sus2", &[0, 2, 7]),
    Listed(b"sus4", &[0, 5, 7]),
];
