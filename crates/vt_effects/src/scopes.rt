//! Locals: how they are looked up, assigned, and cut when a block is left.

ghost use Rattle.std.specs.Prelude.{◌≡◌, ◌++◌, drop, take, IfOk, OnOk, MatchOption};
ghost use Rattle.std.specs.Option.{option_copied};
ghost use Rattle.vt_run.specs.Scopes.{assigned, lookup, params_with};
ghost use Rattle.vt_effects.specs.private.LastLocal.{IsLastNamed, IsUnnamed, first_or_nil};

use std::alloc::Global;
use std::mem;
use vt_event::Locals;
use vt_frac::{Name, NoMemory};
use vt_value::Value;

/// The value of the last local of this name.
pub fn lookup<'a>(name: &[u8], locals: &'a Locals) -> Option<&'a Value>
    ensures { option_copied result ≡ lookup name.now locals.now }
{
    let mut left = locals.as_slice();
    while let Some((local, rest)) = left.split_last() {
        if local.0.as_bytes() == name {
            return Some(&local.1);
        }
        left = rest;
    }
    None
}

/// An assignment changes the last local of its name, or adds one. It fails only for want of memory, and then the locals are
/// lost.
pub fn assign(alloc: Global, name: &[u8], value: Value, locals: &mut Locals) -> Result<(), NoMemory>
    ensures { OnOk result (locals.new ≡ assigned name.now value locals.old) }
{
    let local = (Name::of(alloc, name)?, value);
    let mut items = mem::replace(locals, Locals::new(alloc)).into_vec();
    match last_named(name, items.as_slice()) {
        Some(at) => {
            items[at] = local;
            *locals = Locals::from_vec(items);
            Ok(())
        }
        None => {
            items.push(local)?;
            *locals = Locals::from_vec(items);
            Ok(())
        }
    }
}

/// Where the last local of this name stands.
fn last_named(name: &[u8], locals: &[(Name, Value)]) -> Option<usize>
    ensures { MatchOption result (IsUnnamed name.now locals.now) (IsLastNamed name.now locals.now) }
{
    let mut left = locals;
    while let Some((local, rest)) = left.split_last() {
        if local.0.as_bytes() == name {
            return Some(rest.len());
        }
        left = rest;
    }
    None
}

/// Adds the parameters of a block with their values in order. A parameter without a value is nil.
pub fn push_params(
    alloc: Global,
    params: &[Name],
    values: &[Value],
    locals: &mut Locals,
) -> Result<(), NoMemory>
    ensures { OnOk result (locals.new ≡ locals.old ++ params_with params.now values.now) }
{
    let mut names = params;
    let mut left = values;
    while let Some((name, others)) = names.split_first() {
        let value = first_or_nil(alloc, left)?;
        locals.push((name.copy(alloc)?, value))?;
        names = others;
        left = behind_first(left);
    }
    Ok(())
}

/// The first value, or nil where there is none.
fn first_or_nil(alloc: Global, values: &[Value]) -> Result<Value, NoMemory>
    ensures { IfOk result (λ value. value ≡ first_or_nil values.now) }
{
    match values {
        [] => Ok(Value::Nil),
        [first, ..] => first.copy(alloc),
    }
}

/// The values behind the first.
fn behind_first(values: &[Value]) -> &[Value]
    ensures { result.now ≡ drop 1 values.now }
{
    match values {
        [] => values,
        [_, rest @ ..] => rest,
    }
}

/// Cuts the locals to so many, as they were when a block was entered.
pub fn cut(alloc: Global, count: usize, locals: &mut Locals)
    ensures { locals.new ≡ take count locals.old }
{
    let mut items = mem::replace(locals, Locals::new(alloc)).into_vec();
    items.truncate(count);
    *locals = Locals::from_vec(items);
}
