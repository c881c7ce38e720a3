//! Calls: their arguments, their names and their blocks.
ghost use Rattle.std.specs.Prelude.{◌≡◌, ◌∷◌, [], Some, None, false, OnErr};
ghost use Rattle.vt_grammar.specs.Grammar.{arguments_of, has_label, labels_begun};
ghost use Rattle.vt_build.specs.private.Made.{Makes, Unless};
ghost use Rattle.vt_grammar.specs.Trees.{call_of, call_with, dot_call, gathered, named_tree, no_arguments, plain, wrapped};
ghost use Rattle.vt_grammar.specs.Values.{label_name};
ghost use Rattle.vt_tree.specs.declared.expression.Node.TheVariants as nodes;

use crate::expressions::plain;
use crate::fault::Fault;
use crate::names::name_of;
use sqlite_items::{Boxed, Items};
use std::alloc::Global;
use vt_frac::Name;
use vt_grammar::Arguments;
use vt_tree::{Block, Call, Expr, Node};

/// An argument, with its label where it has one.
pub type Argument = (Option<Name>, Boxed<Expr>);

/// The name of a label: all but its colon.
fn label_name(label: &[u8]) -> &[u8]
    ensures { result.now ≡ label_name label.now }
{
    match label {
        [name @ .., _] => name,
        [] => label,
    }
}

/// The argument with this label.
pub fn make_argument(alloc: Global, label: &[u8], value: Boxed<Expr>) -> Result<Argument, Fault>
    ensures { Makes (Some (label_name label.now), value) result }
{
    let name = name_of(alloc, label_name(label))?;
    Ok((Some(name), value))
}

/// Whether the argument has a label.
pub fn has_label(argument: &Argument) -> bool
    ensures { result ≡ has_label argument.now }
{
    argument.0.is_some()
}

/// Whether an argument with a label was there, with this one.
pub fn labels_begun(labels: bool, argument: &Argument) -> bool
    ensures { result ≡ labels_begun labels argument.now }
{
    labels || has_label(argument)
}

/// Adds an argument to those of its kind.
pub fn add_argument(found: &mut Arguments, argument: Argument) -> Result<(), Fault>
    ensures added { Unless (found.new ≡ gathered found.old (argument ∷ [])) result }
    ensures kept { OnErr result (found.new ≡ found.old) }
{
    let (label, value) = argument;
    match label {
        Some(label) => {
            found.options.push((label, value.into_inner()))?;
            Ok(())
        }
        None => {
            found.args.push(value.into_inner())?;
            Ok(())
        }
    }
}

/// The arguments of which this is the first.
pub fn first_argument(alloc: Global, argument: Argument) -> Result<Arguments, Fault>
    ensures { Makes (gathered no_arguments (argument ∷ [])) result }
{
    let mut found = Arguments {
        args: Items::new(alloc),
        options: Items::new(alloc),
    };
    add_argument(&mut found, argument)?;
    Ok(found)
}

/// The arguments of a pair of parentheses, none where nothing stands in them.
pub fn arguments_of(alloc: Global, given: Option<Arguments>) -> Arguments
    ensures { result ≡ arguments_of given }
{
    match given {
        Some(given) => given,
        None => Arguments {
            args: Items::new(alloc),
            options: Items::new(alloc),
        },
    }
}

/// The call of a name, without a block.
pub(crate) fn call_of(
    alloc: Global,
    name: &[u8],
    wrapped: bool,
    given: Arguments,
) -> Result<Call, Fault>
    ensures { Makes (call_of name.now wrapped given None) result }
{
    let name = name_of(alloc, name)?;
    let Arguments { args, options } = given;
    Ok(Call {
        name,
        wrapped,
        args,
        options,
        block: None,
    })
}

/// A name alone, or the call of it with arguments in parentheses.
pub fn make_named(
    alloc: Global,
    name: &[u8],
    given: Option<Arguments>,
) -> Result<Boxed<Expr>, Fault>
    ensures { Makes (named_tree name.now given) result }
{
    match given {
        None => {
            let name = name_of(alloc, name)?;
            plain(alloc, Node::Name(name))
        }
        Some(given) => {
            let call = call_of(alloc, name, true, given)?;
            plain(alloc, Node::Call(call))
        }
    }
}

/// A call without parentheses.
pub fn make_command(alloc: Global, name: &[u8], given: Arguments) -> Result<Boxed<Expr>, Fault>
    ensures { Makes (plain (nodes.Call (call_of name.now false given None))) result }
{
    let call = call_of(alloc, name, false, given)?;
    plain(alloc, Node::Call(call))
}

fn boxed_block(alloc: Global, block: Option<Block>) -> Result<Option<Boxed<Block>>, Fault>
    ensures { Makes block result }
{
    match block {
        None => Ok(None),
        Some(block) => {
            let block = Boxed::new(alloc, block)?;
            Ok(Some(block))
        }
    }
}

/// What follows a dot.
pub fn make_dot(
    alloc: Global,
    name: &[u8],
    given: Option<Arguments>,
    block: Option<Block>,
) -> Result<Call, Fault>
    ensures { Makes (dot_call name.now given block) result }
{
    let wrapped = given.is_some();
    let name = name_of(alloc, name)?;
    let block = boxed_block(alloc, block)?;
    let Arguments { args, options } = arguments_of(alloc, given);
    Ok(Call {
        name,
        wrapped,
        args,
        options,
        block,
    })
}

/// The call with this block.
pub(crate) fn call_with(alloc: Global, call: Call, block: Block) -> Result<Call, Fault>
    ensures { Makes (call_with call block) result }
{
    let block = Boxed::new(alloc, block)?;
    let Call {
        name,
        wrapped,
        args,
        options,
        ..
    } = call;
    Ok(Call {
        name,
        wrapped,
        args,
        options,
        block: Some(block),
    })
}

pub(crate) fn named_with(alloc: Global, name: Name, block: Block) -> Result<Call, Fault>
    ensures { Makes (call_of name false no_arguments (Some block)) result }
{
    let block = Boxed::new(alloc, block)?;
    Ok(Call {
        name,
        wrapped: false,
        args: Items::new(alloc),
        options: Items::new(alloc),
        block: Some(block),
    })
}
