//! The values of tokens that stand for themselves.
ghost use Rattle.std.specs.Prelude.{◌≡◌, ◌<◌, ◌^◌, pos};
ghost use Rattle.std.specs.Str.Parse.{AllDigits, digits_value, digits_value_after};
ghost use Rattle.vt_build.specs.private.Made.{Makes};
ghost use Rattle.vt_grammar.specs.Trees.{plain};
ghost use Rattle.vt_grammar.specs.Values.{HasValue, fraction_of, literal_at, symbol_name};
ghost use Rattle.vt_frac.specs.Decimal.{decimal_of};
ghost use Rattle.vt_lex.specs.Numbers.{decimal_fits};
ghost use Rattle.vt_tree.specs.declared.expression.Node.TheVariants as nodes;
ghost use Rattle.vt_grammar.specs.declared.terminals.Terminal.TheVariants as Terminal;

use crate::expressions::plain;
use crate::fault::Fault;
use crate::names::name_of;
use sqlite_items::Boxed;
use std::alloc::Global;
use vt_frac::Frac;
use vt_grammar::Terminal;
use vt_lex::text_value;
use vt_tree::{Expr, Literal, Node};

/// The number that digits spell after a number.
fn number_after(number: u64, digits: &[u8]) -> u64
    requires digits { AllDigits 10 digits.now }
    requires fits { digits_value_after 10 number digits.now < 2 ^ 63 }
    ensures { result ≡ digits_value_after 10 number digits.now }
{
    match digits {
        [] => number,
        [digit, rest @ ..] => number_after(number * 10 + u64::from(*digit - b'0'), rest),
    }
}

fn whole_value(digits: &[u8]) -> i64
    requires digits { AllDigits 10 digits.now }
    requires fits { digits_value 10 digits.now < 2 ^ 63 }
    ensures { result ≡ pos (digits_value 10 digits.now) }
{
    number_after(0, digits) as i64
}

fn decimal_value(bytes: &[u8]) -> Frac
    requires { HasValue Terminal.Decimal bytes.now }
    ensures { result ≡ fraction_of (decimal_of bytes.now) }
{
    match Frac::read_decimal(bytes) {
        Ok(value) => value,
        Err(_) => unreachable!(),
    }
}

/// The name of a symbol: all but its colon.
fn symbol_name(symbol: &[u8]) -> &[u8]
    ensures { result.now ≡ symbol_name symbol.now }
{
    match symbol {
        [_, name @ ..] => name,
        [] => symbol,
    }
}

fn literal_value(alloc: Global, terminal: Terminal, bytes: &[u8]) -> Result<Literal, Fault>
    requires { HasValue terminal bytes.now }
    ensures { Makes (literal_at terminal bytes.now) result }
{
    match terminal {
        Terminal::Whole => Ok(Literal::Whole(whole_value(bytes))),
        Terminal::Decimal => Ok(Literal::Decimal(decimal_value(bytes))),
        Terminal::Text => {
            let value = text_value(alloc, bytes)?;
            Ok(Literal::Text(value))
        }
        Terminal::Symbol => {
            let name = name_of(alloc, symbol_name(bytes))?;
            Ok(Literal::Sym(name))
        }
        Terminal::True => Ok(Literal::Bool(true)),
        Terminal::False => Ok(Literal::Bool(false)),
        _ => Ok(Literal::Nil),
    }
}

/// The literal that a token with these bytes is.
pub fn make_literal(alloc: Global, terminal: Terminal, bytes: &[u8]) -> Result<Boxed<Expr>, Fault>
    requires { HasValue terminal bytes.now }
    ensures { Makes (plain (nodes.Literal (literal_at terminal bytes.now))) result }
{
    let value = literal_value(alloc, terminal, bytes)?;
    plain(alloc, Node::Literal(value))
}
