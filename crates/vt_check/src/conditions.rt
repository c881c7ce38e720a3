//! The nine checks, each as a test of a call where it stands.

ghost use Rattle.std.specs.Prelude.{◌≡◌, ◌+◌, ◌^◌, ◌<◌, ◌||◌, ◌&&◌, ◌∷◌, [], bytes_eq, codes, cond, option_copied, not, length};
ghost use Rattle.std.specs.List.{list_any};
ghost use Rattle.vt_path.specs.Path.{IsPathText};
ghost use Rattle.vt_path.specs.Pattern.{IsPatternText};
ghost use Rattle.vt_frac.specs.Names.{is_symbol_name};
ghost use Rattle.vt_tree.specs.declared.expression.Call.{out-Call};
ghost use Rattle.vt_check.specs.Written.{is_among, row_of};
ghost use Rattle.vt_check.specs.Conditions.{given_by, giving_calls, has_bad_option, has_label_without_symbol, has_wrong_block, has_wrong_params, is_misplaced, is_miscounted, is_misnamed, is_no_method, is_other_than_symbol, is_table_symbol, is_taken, most_of, open_calls, single_options, takes_option};
ghost use Rattle.vt_check.specs.private.Judging.{site_of};

use crate::context::Context;
use crate::written::{
    has_arguments, has_label_twice, has_name_twice, is_method, is_named, is_written_out, symbol_of,
};
use vt_frac::Name;
use vt_table::{CallRow, Need, call_of};
use vt_tree::{Call, Expr};

/// `define` is no statement of the text itself.
#[tactic(auto, unfolding(crate::specs::Conditions::is_misplaced))]
pub(crate) fn is_misplaced(call: &Call, context: Context) -> bool
    ensures { result ≡ is_misplaced (site_of context call.now) }
{
    is_named(call, b"define") && !context.outermost
}

/// The first argument of `define` or `live_loop`, or a `name:` of `in_thread`, is no literal symbol.
#[tactic(auto, unfolding(crate::specs::Conditions::is_misnamed))]
pub(crate) fn is_misnamed(call: &Call, context: Context) -> bool
    ensures { result ≡ is_misnamed (site_of context call.now) }
{
    takes_name_first(call, context) && is_other_than_symbol(call.args.get(0))
        || is_named(call, b"in_thread")
            && has_label_without_symbol(call.options.as_slice(), b"name")
}

/// `define` and `live_loop`.
fn takes_name_first(call: &Call, context: Context) -> bool
    ensures { result ≡ is_among (codes "define" ∷ codes "live_loop" ∷ []) (site_of context call.now) }
{
    is_named(call, b"define") || is_named(call, b"live_loop")
}

fn is_other_than_symbol(first: Option<&Expr>) -> bool
    ensures { result ≡ is_other_than_symbol (option_copied first.entry) }
{
    match first {
        None => false,
        Some(expr) => symbol_of(expr).is_none(),
    }
}

fn has_label_without_symbol(options: &[(Name, Expr)], label: &[u8]) -> bool
    ensures { result ≡ has_label_without_symbol label.now options.now }
{
    options.iter().any(|option| label == option.0.as_bytes() && symbol_of(&option.1).is_none())
}

/// `define` of a name of the call table.
#[tactic(auto, unfolding(crate::specs::Conditions::is_taken))]
pub(crate) fn is_taken(call: &Call, context: Context) -> bool
    ensures { result ≡ is_taken (site_of context call.now) }
{
    is_named(call, b"define") && is_table_symbol(call.args.get(0))
}

fn is_table_symbol(first: Option<&Expr>) -> bool
    ensures { result ≡ is_table_symbol (option_copied first.entry) }
{
    let Some(expr) = first else {
        return false;
    };
    match symbol_of(expr) {
        None => false,
        Some(name) => call_of(name).is_some(),
    }
}

/// A name after a dot that may not stand there, or one that must and does not.
#[tactic(auto, unfolding(crate::specs::Conditions::is_no_method))]
pub(crate) fn is_no_method(call: &Call, context: Context, row: Option<CallRow>) -> bool
    requires { row ≡ row_of (site_of context call.now) }
    ensures { result ≡ is_no_method (site_of context call.now) }
{
    if !context.dotted {
        return is_method(call, context) && has_arguments(call, context);
    }
    match row {
        None => true,
        Some(row) => !row.dot,
    }
}

/// A call of the table that is written out has fewer or more positional arguments than its row.
#[tactic(auto, unfolding(crate::specs::Conditions::is_miscounted))]
pub(crate) fn is_miscounted(call: &Call, context: Context, row: Option<CallRow>) -> bool
    requires { row ≡ row_of (site_of context call.now) }
    ensures { result ≡ is_miscounted (site_of context call.now) }
{
    let Some(row) = row else {
        return false;
    };
    if !is_written_out(call, context) {
        return false;
    }
    let receivers = if context.dotted { 1 } else { 0 };
    let count = call.args.as_slice().len() + receivers;
    count < row.least as usize || row.most != ANY && most_of(call, context, row) < count
}

/// Any number of arguments.
const ANY: u8 = 255;

fn most_of(call: &Call, context: Context, row: CallRow) -> usize
    ensures { result ≡ most_of (site_of context call.now) row }
{
    if !context.dotted && (is_named(call, b"tick") || is_named(call, b"look")) {
        1
    } else {
        row.most as usize
    }
}

/// An option that the call does not take, or one given twice.
#[tactic(auto, unfolding(crate::specs::Conditions::has_bad_option))]
pub(crate) fn has_bad_option(call: &Call, context: Context, row: Option<CallRow>) -> bool
    requires { row ≡ row_of (site_of context call.now) }
    ensures { result ≡ has_bad_option (site_of context call.now) }
{
    row.is_some() && has_unknown_option(call, context) || has_label_twice(call.options.as_slice())
}

fn has_unknown_option(call: &Call, context: Context) -> bool
    ensures { result ≡ list_any (λ option. not (takes_option (site_of context call.now) option.0)) (out-Call call.now).options }
{
    call.options
        .as_slice()
        .iter()
        .any(|option| !takes_option(call, context, option.0.as_bytes()))
}

fn takes_option(call: &Call, context: Context, label: &[u8]) -> bool
    ensures { result ≡ takes_option (site_of context call.now) label.now }
{
    is_open(call) || takes_single(call, label)
}

/// The calls that take every option.
fn is_open(call: &Call) -> bool
    ensures { result ≡ list_any (λ name. bytes_eq name (out-Call call.now).name) open_calls }
{
    is_named(call, b"play")
        || is_named(call, b"play_pattern")
        || is_named(call, b"play_pattern_timed")
        || is_named(call, b"sample")
        || is_named(call, b"synth")
        || is_named(call, b"use_synth_defaults")
        || is_named(call, b"with_fx")
}

/// The call takes this option, and not every one.
fn takes_single(call: &Call, label: &[u8]) -> bool
    ensures { result ≡ list_any (λ row. bytes_eq row.0 (out-Call call.now).name && bytes_eq row.1 label.now) single_options }
{
    is_option_of(call, b"in_thread", label, b"name")
        || is_option_of(call, b"live_loop", label, b"sync")
        || is_option_of(call, b"live_loop", label, b"init")
        || is_option_of(call, b"range", label, b"step")
        || is_option_of(call, b"line", label, b"steps")
        || is_option_of(call, b"scale", label, b"num_octaves")
}

/// The call has this name, and the label is this option's.
fn is_option_of(call: &Call, name: &[u8], label: &[u8], option: &[u8]) -> bool
    ensures { result ≡ (bytes_eq name.now (out-Call call.now).name && bytes_eq option.now label.now) }
{
    is_named(call, name) && option == label
}

/// A block that is missing, or that may not be there.
#[tactic(auto, unfolding(crate::specs::Conditions::has_wrong_block))]
pub(crate) fn has_wrong_block(call: &Call, context: Context, row: Option<CallRow>) -> bool
    requires { row ≡ row_of (site_of context call.now) }
    ensures { result ≡ has_wrong_block (site_of context call.now) }
{
    let there = call.block.is_some();
    match row {
        None => there,
        Some(row) => match row.block {
            Need::None => there,
            Need::Must => !there && is_written_out(call, context),
            Need::May => false,
        },
    }
}

/// Too many parameters, or two of one name.
#[tactic(auto, unfolding(crate::specs::Conditions::has_wrong_params))]
pub(crate) fn has_wrong_params(call: &Call, context: Context) -> bool
    ensures { result ≡ has_wrong_params (site_of context call.now) }
{
    let Some(block) = &call.block else {
        return false;
    };
    let params = block.get().params.as_slice();
    given_by(call, context) < params.len() || has_name_twice(params)
}

/// How many parameters a call gives to its block at most.
fn given_by(call: &Call, context: Context) -> usize
    ensures { result ≡ given_by (site_of context call.now) }
{
    if is_named(call, b"define") {
        16
    } else if gives_one(call, context) {
        1
    } else {
        0
    }
}

/// `times`, `each`, `map`, `at`, `density` and `live_loop`.
fn gives_one(call: &Call, context: Context) -> bool
    ensures { result ≡ is_among giving_calls (site_of context call.now) }
{
    is_named(call, b"times")
        || is_named(call, b"each")
        || is_named(call, b"map")
        || is_named(call, b"at")
        || is_named(call, b"density")
        || is_named(call, b"live_loop")
}
