//! The rows of the call table, and the function of each.

ghost use Rattle.std.specs.Prelude.{◌≡◌, ◌<◌};
ghost use Rattle.vt_table.specs.Calls.{call_at};
ghost use Rattle.vt_value.specs.Answers.{Gives};
ghost use Rattle.vt_ring.specs.CallTable.{IsPureOrRandom, value_of_call, value_of_row};
ghost use Rattle.vt_ring.specs.Streams.{moved_on, words_from};

use crate::counting::{count_call, length_call, size_call, sum_call};
use crate::inverting::chord_invert_call;
use crate::making::{bools_call, knit_call, line_call, range_call, ring_call, spread_call};
use crate::notes::{chord_call, degree_call, note_call, octs_call, scale_call};
use crate::numbers::{
    abs_call, ceil_call, dec_call, even_call, floor_call, inc_call, max_call, min_call, odd_call,
    round_call,
};
use crate::parts::{
    butlast_call, drop_call, drop_last_call, first_call, last_call, mirror_call, reflect_call,
    repeat_call, reverse_call, rotate_call, stretch_call, take_call, take_last_call,
};
use crate::picking::pick_call;
use crate::random::{
    choose_call, dice_call, one_in_call, rand_call, rand_i_call, rrand_call, rrand_i_call,
};
use crate::shuffling::shuffle_call;
use crate::sorting::sort_call;
use std::alloc::Global;
use vt_frac::Name;
use vt_rand::Stream;
use vt_table::{CALL_COUNT, CallName};
use vt_value::{FaultKind, Value, ValueFault};

/// What a pure or random call of the table gives for its arguments and options, and the words that it draws from the stream.
///
/// `number` is that of the call's row. The receiver of a dot is the first argument. An option counts once, by its first value, and one that the call does not know is not looked at. A fault is the first in the order of the language. The stream stands behind the words of the call, whether it gives a value, a fault or `NoMemory`: all words are drawn before memory is taken.
pub fn call(
    alloc: Global,
    number: u16,
    args: &[Value],
    options: &[(Name, Value)],
    stream: &mut Stream,
) -> Result<Value, ValueFault>
    requires bound { number < CALL_COUNT }
    requires row { IsPureOrRandom number }
    ensures value { Gives (value_of_row (call_at number) args.now options.now (words_from stream.old)).answer result }
    ensures drawn { stream.new ≡ moved_on (value_of_row (call_at number) args.now options.now (words_from stream.old)).drawn stream.old }
{
    named(alloc, CallName::of_number(number), args, options, stream)
}

/// The call of this name, one arm for each row of the table. The calls with effects are none of these.
#[tactic(auto, unfolding(vt_ring::specs::CallTable::value_of_call))]
fn named(
    alloc: Global,
    name: CallName,
    args: &[Value],
    options: &[(Name, Value)],
    stream: &mut Stream,
) -> Result<Value, ValueFault>
    ensures value { Gives (value_of_call name args.now options.now (words_from stream.old)).answer result }
    ensures drawn { stream.new ≡ moved_on (value_of_call name args.now options.now (words_from stream.old)).drawn stream.old }
{
    match name {
        CallName::Abs => abs_call(alloc, args),
        CallName::At => Err(ValueFault::Fault(FaultKind::UnknownName)),
        CallName::Bools => bools_call(alloc, args),
        CallName::Butlast => butlast_call(alloc, args),
        CallName::Ceil => ceil_call(args),
        CallName::Choose => choose_call(alloc, args, stream),
        CallName::Chord => chord_call(alloc, args),
        CallName::ChordInvert => chord_invert_call(alloc, args),
        CallName::Count => count_call(args),
        CallName::Cue => Err(ValueFault::Fault(FaultKind::UnknownName)),
        CallName::CurrentBpm => Err(ValueFault::Fault(FaultKind::UnknownName)),
        CallName::Dec => dec_call(alloc, args),
        CallName::Define => Err(ValueFault::Fault(FaultKind::UnknownName)),
        CallName::Degree => degree_call(args),
        CallName::Density => Err(ValueFault::Fault(FaultKind::UnknownName)),
        CallName::Dice => dice_call(args, stream),
        CallName::Drop => drop_call(alloc, args),
        CallName::DropLast => drop_last_call(alloc, args),
        CallName::Each => Err(ValueFault::Fault(FaultKind::UnknownName)),
        CallName::Even => even_call(args),
        CallName::First => first_call(alloc, args),
        CallName::Floor => floor_call(args),
        CallName::Get => Err(ValueFault::Fault(FaultKind::UnknownName)),
        CallName::InThread => Err(ValueFault::Fault(FaultKind::UnknownName)),
        CallName::Inc => inc_call(alloc, args),
        CallName::Knit => knit_call(alloc, args),
        CallName::Last => last_call(alloc, args),
        CallName::Length => length_call(args),
        CallName::Line => line_call(alloc, args, options),
        CallName::LiveLoop => Err(ValueFault::Fault(FaultKind::UnknownName)),
        CallName::Look => Err(ValueFault::Fault(FaultKind::UnknownName)),
        CallName::Loop => Err(ValueFault::Fault(FaultKind::UnknownName)),
        CallName::Map => Err(ValueFault::Fault(FaultKind::UnknownName)),
        CallName::Max => max_call(alloc, args),
        CallName::Min => min_call(alloc, args),
        CallName::Mirror => mirror_call(alloc, args),
        CallName::Note => note_call(args),
        CallName::Octs => octs_call(alloc, args),
        CallName::Odd => odd_call(args),
        CallName::OneIn => one_in_call(args, stream),
        CallName::Pick => pick_call(alloc, args, stream),
        CallName::Play => Err(ValueFault::Fault(FaultKind::UnknownName)),
        CallName::PlayPattern => Err(ValueFault::Fault(FaultKind::UnknownName)),
        CallName::PlayPatternTimed => Err(ValueFault::Fault(FaultKind::UnknownName)),
        CallName::Print => Err(ValueFault::Fault(FaultKind::UnknownName)),
        CallName::Puts => Err(ValueFault::Fault(FaultKind::UnknownName)),
        CallName::Rand => rand_call(args, stream),
        CallName::RandI => rand_i_call(args, stream),
        CallName::Range => range_call(alloc, args, options),
        CallName::Reflect => reflect_call(alloc, args),
        CallName::Repeat => repeat_call(alloc, args),
        CallName::Reverse => reverse_call(alloc, args),
        CallName::Ring => ring_call(alloc, args),
        CallName::Rotate => rotate_call(alloc, args),
        CallName::Round => round_call(args),
        CallName::Rrand => rrand_call(args, stream),
        CallName::RrandI => rrand_i_call(args, stream),
        CallName::Rt => Err(ValueFault::Fault(FaultKind::UnknownName)),
        CallName::Sample => Err(ValueFault::Fault(FaultKind::UnknownName)),
        CallName::Scale => scale_call(alloc, args, options),
        CallName::Set => Err(ValueFault::Fault(FaultKind::UnknownName)),
        CallName::Shuffle => shuffle_call(alloc, args, stream),
        CallName::Size => size_call(args),
        CallName::Sleep => Err(ValueFault::Fault(FaultKind::UnknownName)),
        CallName::Sort => sort_call(alloc, args),
        CallName::Spread => spread_call(alloc, args),
        CallName::Stop => Err(ValueFault::Fault(FaultKind::UnknownName)),
        CallName::Stretch => stretch_call(alloc, args),
        CallName::Sum => sum_call(args),
        CallName::Sync => Err(ValueFault::Fault(FaultKind::UnknownName)),
        CallName::Synth => Err(ValueFault::Fault(FaultKind::UnknownName)),
        CallName::Take => take_call(alloc, args),
        CallName::TakeLast => take_last_call(alloc, args),
        CallName::Tick => Err(ValueFault::Fault(FaultKind::UnknownName)),
        CallName::TickReset => Err(ValueFault::Fault(FaultKind::UnknownName)),
        CallName::TickSet => Err(ValueFault::Fault(FaultKind::UnknownName)),
        CallName::Times => Err(ValueFault::Fault(FaultKind::UnknownName)),
        CallName::UseBpm => Err(ValueFault::Fault(FaultKind::UnknownName)),
        CallName::UseDebug => Err(ValueFault::Fault(FaultKind::UnknownName)),
        CallName::UseRandomSeed => Err(ValueFault::Fault(FaultKind::UnknownName)),
        CallName::UseSynth => Err(ValueFault::Fault(FaultKind::UnknownName)),
        CallName::UseSynthDefaults => Err(ValueFault::Fault(FaultKind::UnknownName)),
        CallName::Vt => Err(ValueFault::Fault(FaultKind::UnknownName)),
        CallName::Wait => Err(ValueFault::Fault(FaultKind::UnknownName)),
        CallName::WithBpm => Err(ValueFault::Fault(FaultKind::UnknownName)),
        CallName::WithFx => Err(ValueFault::Fault(FaultKind::UnknownName)),
        CallName::WithRandomSeed => Err(ValueFault::Fault(FaultKind::UnknownName)),
        CallName::WithSynth => Err(ValueFault::Fault(FaultKind::UnknownName)),
    }
}
