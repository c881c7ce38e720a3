//! The calls of the language.

ghost use Rattle.std.specs.Prelude.{◌≡◌, ◌↔◌, ◌<◌, Contains, IfSome, IsNone, Some, slice_get};
ghost use Rattle.vt_table.specs.Calls.{call_at, call_named, call_row, calls, names_of, number_of};
ghost use Rattle.vt_table.specs.private.Entries.{row_of_entry};
ghost use Rattle.vt_table.specs.Names.{row_of};

use crate::names::{Named, row_named};

/// The calls of the language, in the order of the bytes of their names. The number of a call is its
/// place here, and the row of its name in the table.
#[derive(Clone, Copy, Debug, PartialEq, Eq)]
pub enum CallName {
    Abs,
    At,
    Bools,
    Butlast,
    Ceil,
    Choose,
    Chord,
    ChordInvert,
    Count,
    Cue,
    CurrentBpm,
    Dec,
    Define,
    Degree,
    Density,
    Dice,
    Drop,
    DropLast,
    Each,
    Even,
    First,
    Floor,
    Get,
    InThread,
    Inc,
    Knit,
    Last,
    Length,
    Line,
    LiveLoop,
    Look,
    Loop,
    Map,
    Max,
    Min,
    Mirror,
    Note,
    Octs,
    Odd,
    OneIn,
    Pick,
    Play,
    PlayPattern,
    PlayPatternTimed,
    Print,
    Puts,
    Rand,
    RandI,
    Range,
    Reflect,
    Repeat,
    Reverse,
    Ring,
    Rotate,
    Round,
    Rrand,
    RrandI,
    Rt,
    Sample,
    Scale,
    Set,
    Shuffle,
    Size,
    Sleep,
    Sort,
    Spread,
    Stop,
    Stretch,
    Sum,
    Sync,
    Synth,
    Take,
    TakeLast,
    Tick,
    TickReset,
    TickSet,
    Times,
    UseBpm,
    UseDebug,
    UseRandomSeed,
    UseSynth,
    UseSynthDefaults,
    Vt,
    Wait,
    WithBpm,
    WithFx,
    WithRandomSeed,
    WithSynth,
}

/// How many calls there are.
pub const CALL_COUNT: usize = 88;

impl CallName {
    /// The number of the call, which its row has.
    pub fn number(self) -> u16
        ensures value { result ≡ number_of self }
        ensures bound { result < CALL_COUNT }
        ensures row { call_at result ≡ Some self }
    {
        self as u16
    }

    /// The call whose row has this number.
    pub fn of_number(number: u16) -> CallName
        requires { number < CALL_COUNT }
        ensures value { number_of result ≡ number }
        ensures row { call_at number ≡ Some result }
    {
        entry_at(number).call
    }
}

/// What a call asks of a block: it takes none, it must have one, or it may have one. Today no row of the table has `May`.
#[derive(Clone, Copy, Debug, PartialEq, Eq)]
pub enum Need {
    None,
    Must,
    May,
}

/// What the call table says of a call.
#[derive(Clone, Copy, Debug, PartialEq, Eq)]
pub struct CallRow {
    /// The number of the call, of which `CallName::of_number` makes the call.
    pub number: u16,
    /// The least count of positional arguments; the receiver of a dot counts as the first.
    pub least: u8,
    /// The greatest such count; 255 is any number. `tick` and `look` have 2, and 1 without a dot.
    pub most: u8,
    /// Whether it has a block.
    pub block: Need,
    /// Whether it may be called with a dot.
    pub dot: bool,
    /// Whether it has effects; the other calls are pure or draw random words.
    pub effect: bool,
}

/// The row of the call of this name. None exactly where no call has it.
pub fn call_of(name: &[u8]) -> Option<CallRow>
    ensures row { result ≡ call_row name.now }
    ensures bound { IfSome result (λ row. row.number < CALL_COUNT) }
    ensures call { IfSome result (λ row. call_at row.number ≡ call_named name.now) }
    ensures none { IsNone result ↔ ¬ Contains (names_of calls) name.now }
{
    let number = number_named(name)?;
    let entry = entry_at(number);
    Some(CallRow {
        number,
        least: entry.least,
        most: entry.most,
        block: entry.block,
        dot: entry.dot,
        effect: entry.effect,
    })
}

/// A call of the table, at the place of its number.
#[derive(Clone, Copy)]
struct Entry {
    name: &'static [u8],
    call: CallName,
    least: u8,
    most: u8,
    block: Need,
    dot: bool,
    effect: bool,
}

impl Named for Entry {
    ghost name_of = { λ entry. entry.name.now };

    fn name(&self) -> &[u8] {
        self.name
    }
}

/// The number of the call of this name. The table is searched where it stands, for a `NameTable` would be a copy of it.
fn number_named(name: &[u8]) -> Option<u16>
    ensures row { result ≡ row_of (names_of calls) name.now }
    ensures bound { IfSome result (λ number. number < CALL_COUNT) }
    ensures none { IsNone result ↔ ¬ Contains (names_of calls) name.now }
{
    row_named(&CALLS, name)
}

fn entry_at(number: u16) -> Entry
    requires { number < CALL_COUNT }
    ensures { slice_get calls number ≡ Some (row_of_entry result) }
{
    CALLS[number as usize]
}

/// Any number of arguments.
const ANY: u8 = 255;

macro_rules! call {
    ($name:literal, $call:ident, $least:literal, $most:expr, $block:ident, $dot:literal, $effect:literal) => {
        Entry {
            name: $name,
            call: CallName::$call,
            least: $least,
            most: $most,
            block: Need::$block,
            dot: $dot,
            effect: $effect,
        }
    };
}

// The name, the call, the least and the greatest count, the block, whether a dot may call it, and
// whether it has effects.
static CALLS: [Entry; CALL_COUNT] = [
    call!(b"abs", Abs, 1, 1, None, true, false),
    call!(b"at", At, 1, 2, Must, false, true),
    call!(b"bools", Bools, 0, ANY, None, true, false),
    call!(b"butlast", Butlast, 1, 1, None, true, false),
    call!(b"ceil", Ceil, 1, 1, None, true, false),
    call!(b"choose", Choose, 1, 1, None, true, false),
    call!(b"chord", Chord, 2, 2, None, true, false),
    call!(b"chord_invert", ChordInvert, 2, 2, None, true, false),
    call!(b"count", Count, 1, 1, None, true, false),
    call!(b"cue", Cue, 1, ANY, None, false, true),
    call!(b"current_bpm", CurrentBpm, 0, 0, None, false, true),
    call!(b"dec", Dec, 1, 1, None, true, false),
    call!(b"define", Define, 1, 1, Must, false, true),
    call!(b"degree", Degree, 3, 3, None, true, false),
    call!(b"density", Density, 1, 1, Must, false, true),
    call!(b"dice", Dice, 0, 1, None, true, false),
    call!(b"drop", Drop, 2, 2, None, true, false),
    call!(b"drop_last", DropLast, 2, 2, None, true, false),
    call!(b"each", Each, 1, 1, Must, true, true),
    call!(b"even", Even, 1, 1, None, true, false),
    call!(b"first", First, 1, 1, None, true, false),
    call!(b"floor", Floor, 1, 1, None, true, false),
    call!(b"get", Get, 1, 1, None, false, true),
    call!(b"in_thread", InThread, 0, 0, Must, false, true),
    call!(b"inc", Inc, 1, 1, None, true, false),
    call!(b"knit", Knit, 0, ANY, None, true, false),
    call!(b"last", Last, 1, 1, None, true, false),
    call!(b"length", Length, 1, 1, None, true, false),
    call!(b"line", Line, 2, 2, None, true, false),
    call!(b"live_loop", LiveLoop, 1, 1, Must, false, true),
    call!(b"look", Look, 0, 2, None, true, true),
    call!(b"loop", Loop, 0, 0, Must, false, true),
    call!(b"map", Map, 1, 1, Must, true, true),
    call!(b"max", Max, 2, 2, None, true, false),
    call!(b"min", Min, 2, 2, None, true, false),
    call!(b"mirror", Mirror, 1, 1, None, true, false),
    call!(b"note", Note, 1, 1, None, true, false),
    call!(b"octs", Octs, 2, 2, None, true, false),
    call!(b"odd", Odd, 1, 1, None, true, false),
    call!(b"one_in", OneIn, 1, 1, None, true, false),
    call!(b"pick", Pick, 1, 2, None, true, false),
    call!(b"play", Play, 1, 1, None, false, true),
    call!(b"play_pattern", PlayPattern, 1, 1, None, false, true),
    call!(
        b"play_pattern_timed",
        PlayPatternTimed,
        2,
        2,
        None,
        false,
        true
    ),
    call!(b"print", Print, 0, 16, None, false, true),
    call!(b"puts", Puts, 0, 16, None, false, true),
    call!(b"rand", Rand, 0, 1, None, true, false),
    call!(b"rand_i", RandI, 1, 1, None, true, false),
    call!(b"range", Range, 2, 3, None, true, false),
    call!(b"reflect", Reflect, 1, 1, None, true, false),
    call!(b"repeat", Repeat, 2, 2, None, true, false),
    call!(b"reverse", Reverse, 1, 1, None, true, false),
    call!(b"ring", Ring, 0, ANY, None, true, false),
    call!(b"rotate", Rotate, 1, 2, None, true, false),
    call!(b"round", Round, 1, 1, None, true, false),
    call!(b"rrand", Rrand, 2, 2, None, true, false),
    call!(b"rrand_i", RrandI, 2, 2, None, true, false),
    call!(b"rt", Rt, 1, 1, None, false, true),
    call!(b"sample", Sample, 1, 1, None, false, true),
    call!(b"scale", Scale, 2, 2, None, true, false),
    call!(b"set", Set, 2, 2, None, false, true),
    call!(b"shuffle", Shuffle, 1, 1, None, true, false),
    call!(b"size", Size, 1, 1, None, true, false),
    call!(b"sleep", Sleep, 1, 1, None, false, true),
    call!(b"sort", Sort, 1, 1, None, true, false),
    call!(b"spread", Spread, 2, 2, None, true, false),
    call!(b"stop", Stop, 0, 0, None, false, true),
    call!(b"stretch", Stretch, 2, 2, None, true, false),
    call!(b"sum", Sum, 1, 1, None, true, false),
    call!(b"sync", Sync, 1, 1, None, false, true),
    call!(b"synth", Synth, 1, 1, None, false, true),
    call!(b"take", Take, 2, 2, None, true, false),
    call!(b"take_last", TakeLast, 2, 2, None, true, false),
    call!(b"tick", Tick, 0, 2, None, true, true),
    call!(b"tick_reset", TickReset, 0, 1, None, false, true),
    call!(b"tick_set", TickSet, 1, 2, None, false, true),
    call!(b"times", Times, 1, 1, Must, true, true),
    call!(b"use_bpm", UseBpm, 1, 1, None, false, true),
    call!(b"use_debug", UseDebug, 1, 1, None, false, true),
    call!(b"use_random_seed", UseRandomSeed, 1, 1, None, false, true),
    call!(b"use_synth", UseSynth, 1, 1, None, false, true),
    call!(
        b"use_synth_defaults",
        UseSynthDefaults,
        0,
        0,
        None,
        false,
        true
    ),
    call!(b"vt", Vt, 0, 0, None, false, true),
    call!(b"wait", Wait, 1, 1, None, false, true),
    call!(b"with_bpm", WithBpm, 1, 1, Must, false, true),
    call!(b"with_fx", WithFx, 1, 1, Must, false, true),
    call!(b"with_random_seed", WithRandomSeed, 1, 1, Must, false, true),
    call!(b"with_synth", WithSynth, 1, 1, Must, false, true),
];
