//! How a call is written.

ghost use Rattle.std.specs.Prelude.{◌≡◌, ◌+◌, ◌^◌, ◌<◌, ◌||◌, bytes_eq, cond, length, map, option_copied};
ghost use Rattle.std.specs.List.{list_any};
ghost use Rattle.vt_tree.specs.declared.expression.Call.{out-Call};
ghost use Rattle.vt_check.specs.Written.{first_of, has_arguments, has_twice, is_among, is_written_out, literal_of, methods, symbol_of, text_of};
ghost use Rattle.vt_check.specs.private.Judging.{site_of};

use crate::context::Context;
use vt_frac::Name;
use vt_tree::{Call, Expr, Literal, Node};

/// The call has this name.
pub(crate) fn is_named(call: &Call, name: &[u8]) -> bool
    ensures { result ≡ bytes_eq name.now (out-Call call.now).name }
{
    name == call.name.as_bytes()
}

/// `times`, `each` and `map`.
pub(crate) fn is_method(call: &Call, context: Context) -> bool
    ensures { result ≡ is_among methods (site_of context call.now) }
{
    is_named(call, b"times") || is_named(call, b"each") || is_named(call, b"map")
}

/// It is written with arguments, labelled ones too, or with parentheses.
pub(crate) fn has_arguments(call: &Call, context: Context) -> bool
    ensures { result ≡ has_arguments (site_of context call.now) }
{
    call.wrapped || !call.args.is_empty() || !call.options.is_empty()
}

/// It is written with arguments, parentheses or a dot.
pub(crate) fn is_written_out(call: &Call, context: Context) -> bool
    ensures { result ≡ is_written_out (site_of context call.now) }
{
    has_arguments(call, context) || context.dotted
}

/// The literal that an expression is, with or without parentheses round it.
fn literal_of(expr: &Expr) -> Option<&Literal>
    ensures { option_copied result ≡ literal_of expr.now }
{
    match &expr.node {
        Node::Literal(value) => Some(value),
        _ => None,
    }
}

/// The name of the literal symbol that an expression is.
pub(crate) fn symbol_of(expr: &Expr) -> Option<&[u8]>
    ensures { option_copied result ≡ symbol_of expr.now }
{
    let literal = literal_of(expr)?;
    match literal {
        Literal::Sym(name) => Some(name.as_bytes()),
        _ => None,
    }
}

/// The value of the literal text that an expression is.
pub(crate) fn text_of(expr: &Expr) -> Option<&[u8]>
    ensures { option_copied result ≡ text_of expr.now }
{
    let literal = literal_of(expr)?;
    match literal {
        Literal::Text(value) => Some(value.as_bytes()),
        _ => None,
    }
}

/// One of these names stands there twice.
pub(crate) fn has_name_twice(names: &[Name]) -> bool
    ensures { result ≡ has_twice (λ name. name) names.now }
{
    for (i, name) in names.iter().enumerate() {
        if has_name(&names[i + 1..], name.as_bytes()) {
            return true;
        }
    }
    false
}

fn has_name(names: &[Name], name: &[u8]) -> bool
    ensures { result ≡ list_any (λ other. bytes_eq name.now other) names.now }
{
    names.iter().any(|other| name == other.as_bytes())
}

/// One of these labels stands there twice.
pub(crate) fn has_label_twice(options: &[(Name, Expr)]) -> bool
    ensures { result ≡ has_twice (λ option. option.0) options.now }
{
    for (i, option) in options.iter().enumerate() {
        if has_label(&options[i + 1..], option.0.as_bytes()) {
            return true;
        }
    }
    false
}

fn has_label(options: &[(Name, Expr)], label: &[u8]) -> bool
    ensures { result ≡ list_any (λ option. bytes_eq label.now option.0) options.now }
{
    options.iter().any(|option| label == option.0.as_bytes())
}
