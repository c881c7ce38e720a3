//! The calls that draw random words.

ghost use Rattle.std.specs.Prelude.{◌≡◌, ◌+◌, ◌<◌, ◌≤◌, ◌-ℤ◌, ◌+ℤ◌, ◌≤ℤ◌, IfOk, pos};
ghost use Rattle.vt_value.specs.Answers.{Gives};
ghost use Rattle.vt_ring.specs.RandomCalls.{bound_in, choose_call, dice_call, numbers_between, one_in_call, part_of_the_way, rand_call, rand_i_call, rrand_call, rrand_i_call};
ghost use Rattle.vt_ring.specs.Streams.{moved_on, words_from};

use crate::arguments::between;
use crate::draws::{chosen, next_below, next_unit, next_word};
use crate::signatures::{
    a_ring, a_whole, integer, perhaps_a_number, perhaps_a_whole, two_numbers, two_wholes,
};
use std::alloc::Global;
use vt_frac::Frac;
use vt_rand::Stream;
use vt_ring::{exact_difference, exact_product, exact_sum};
use vt_value::{FaultKind, Integer, Value, ValueFault};

/// `rand`, `rand N`
#[tactic(auto, unfolding(vt_ring::specs::RandomCalls::rand_call))]
pub(crate) fn rand_call(args: &[Value], stream: &mut Stream) -> Result<Value, ValueFault>
    ensures value { Gives (rand_call args.now (words_from stream.old)).answer result }
    ensures drawn { stream.new ≡ moved_on (rand_call args.now (words_from stream.old)).drawn stream.old }
{
    let number = perhaps_a_number(args)?;
    let unit = next_unit(stream);
    let part = exact_product(unit, number)?;
    Ok(Value::Part(part))
}

/// `rand_i n`
#[tactic(auto, unfolding(vt_ring::specs::RandomCalls::rand_i_call))]
pub(crate) fn rand_i_call(args: &[Value], stream: &mut Stream) -> Result<Value, ValueFault>
    ensures value { Gives (rand_i_call args.now (words_from stream.old)).answer result }
    ensures drawn { stream.new ≡ moved_on (rand_i_call args.now (words_from stream.old)).drawn stream.old }
{
    let bound = bound_in(a_whole(args)?)?;
    let number = next_below(stream, bound);
    Ok(Value::Whole(integer(number)))
}

/// `rrand N, N`
#[tactic(auto, unfolding(vt_ring::specs::RandomCalls::rrand_call))]
pub(crate) fn rrand_call(args: &[Value], stream: &mut Stream) -> Result<Value, ValueFault>
    ensures value { Gives (rrand_call args.now (words_from stream.old)).answer result }
    ensures drawn { stream.new ≡ moved_on (rrand_call args.now (words_from stream.old)).drawn stream.old }
{
    let (a, b) = two_numbers(args)?;
    let unit = next_unit(stream);
    let number = part_of_the_way(a, b, unit)?;
    Ok(Value::Part(number))
}

/// `rrand_i n, n`
#[tactic(auto, unfolding(vt_ring::specs::RandomCalls::rrand_i_call))]
pub(crate) fn rrand_i_call(args: &[Value], stream: &mut Stream) -> Result<Value, ValueFault>
    ensures value { Gives (rrand_i_call args.now (words_from stream.old)).answer result }
    ensures drawn { stream.new ≡ moved_on (rrand_i_call args.now (words_from stream.old)).drawn stream.old }
{
    let (a, b) = two_wholes(args)?;
    let count = numbers_between(a, b)?;
    let above = next_below(stream, count);
    Ok(Value::Whole(raised(a, above, b)))
}

/// `dice`, `dice n`
#[tactic(auto, unfolding(vt_ring::specs::RandomCalls::dice_call))]
pub(crate) fn dice_call(args: &[Value], stream: &mut Stream) -> Result<Value, ValueFault>
    ensures value { Gives (dice_call args.now (words_from stream.old)).answer result }
    ensures drawn { stream.new ≡ moved_on (dice_call args.now (words_from stream.old)).drawn stream.old }
{
    let bound = bound_in(perhaps_a_whole(6, args)?)?;
    let number = next_below(stream, bound);
    Ok(Value::Whole(integer(1 + number)))
}

/// `one_in n`
#[tactic(auto, unfolding(vt_ring::specs::RandomCalls::one_in_call))]
pub(crate) fn one_in_call(args: &[Value], stream: &mut Stream) -> Result<Value, ValueFault>
    ensures value { Gives (one_in_call args.now (words_from stream.old)).answer result }
    ensures drawn { stream.new ≡ moved_on (one_in_call args.now (words_from stream.old)).drawn stream.old }
{
    let bound = bound_in(a_whole(args)?)?;
    let number = next_below(stream, bound);
    Ok(Value::Bool(number == 0))
}

/// `choose r`
#[tactic(auto, unfolding(vt_ring::specs::RandomCalls::choose_call))]
pub(crate) fn choose_call(
    alloc: Global,
    args: &[Value],
    stream: &mut Stream,
) -> Result<Value, ValueFault>
    ensures value { Gives (choose_call args.now (words_from stream.old)).answer result }
    ensures drawn { stream.new ≡ moved_on (choose_call args.now (words_from stream.old)).drawn stream.old }
{
    let items = a_ring(args)?;
    if items.is_empty() {
        return Err(ValueFault::Fault(FaultKind::EmptyRing));
    }
    let word = next_word(stream);
    Ok(chosen(items, word).copy(alloc)?)
}

/// A number below which can be drawn.
fn bound_in(number: Integer) -> Result<u32, FaultKind>
    ensures value { result ≡ bound_in number }
    ensures some { IfOk result (λ bound. 1 ≤ bound) }
{
    between(1, u32::MAX, number)
}

/// How many whole numbers there are from a to b.
fn numbers_between(a: Integer, b: Integer) -> Result<u32, FaultKind>
    ensures value { result ≡ numbers_between (b -ℤ a) }
    ensures some { IfOk result (λ count. (1 ≤ count) × (b -ℤ a ≡ pos count -ℤ pos 1)) }
{
    numbers_over(distance(a, b))
}

/// How far it is from a to b.
fn distance(a: Integer, b: Integer) -> i128
    ensures { result ≡ b -ℤ a }
{
    i128::from(b.get()) - i128::from(a.get())
}

/// How many whole numbers there are over a distance, with both ends.
fn numbers_over(distance: i128) -> Result<u32, FaultKind>
    ensures value { result ≡ numbers_between distance }
    ensures some { IfOk result (λ count. (1 ≤ count) × (distance ≡ pos count -ℤ pos 1)) }
{
    if distance < 0 {
        return Err(FaultKind::BadValue);
    }
    if distance >= 4_294_967_295 {
        return Err(FaultKind::BadValue);
    }
    Ok(distance as u32 + 1)
}

/// a and so much more, which is at most b.
fn raised(a: Integer, above: u32, b: Integer) -> Integer
    requires { (pos above) ≤ℤ (b -ℤ a) }
    ensures { result ≡ a +ℤ pos above }
{
    match Integer::new(a.get() + i64::from(above)) {
        Some(number) => number,
        None => unreachable!(),
    }
}

/// a + (b - a) * unit
fn part_of_the_way(a: Frac, b: Frac, unit: Frac) -> Result<Frac, FaultKind>
    ensures { result ≡ part_of_the_way a b unit }
{
    let way = exact_difference(b, a)?;
    let part = exact_product(way, unit)?;
    exact_sum(a, part)
}
