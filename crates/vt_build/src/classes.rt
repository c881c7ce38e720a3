//! The classes of tokens that the parser asks for, and with which terminals a rule may begin.

ghost use Rattle.std.specs.Prelude.{◌≡◌, nat_lt};
ghost use Rattle.vt_build.specs.private.Classes.{class_terminals};
ghost use Rattle.vt_grammar.specs.Grammar.{is_literal, is_paren_open, is_list_open, is_sign, is_term_op, is_sum_op, is_comp_op, is_conj_op, is_disj_op, is_expr_op, is_set, is_condition, leads};
ghost use Rattle.vt_grammar.specs.private.Sets.{ExprStarts, ArgStarts, StmtStarts};

use vt_grammar::Terminal;

/// A class of tokens: those of which a rule of the grammar takes any one at the same spot, such as the operators of one level.
#[derive(Clone, Copy)]
pub enum Class {
    /// A number, a text, a symbol, `nil`, `true` or `false`.
    Literal,
    /// `(`, close to what stands before it or not.
    ParenthesisOpen,
    /// `[`, close to what stands before it or not.
    ListOpen,
    /// `-` or `!` before a value.
    Sign,
    /// `*`, `/` or `%`.
    TermOperator,
    /// `+` or `-`.
    SumOperator,
    /// `==`, `!=`, `<`, `<=`, `>` or `>=`.
    ComparisonOperator,
    /// `&&`.
    ConjunctionOperator,
    /// `||`.
    DisjunctionOperator,
    /// `and` or `or`.
    ExpressionOperator,
    /// `=`, `+=`, `-=` or `*=`.
    Set,
    /// `if` or `unless`.
    Condition,
}

/// Whether a token with this terminal is in the class.
pub fn is_of(class: Class, terminal: Terminal) -> bool
    ensures { result ≡ class_terminals class terminal }
{
    match class {
        Class::Literal => is_literal(terminal),
        Class::ParenthesisOpen => is_paren_open(terminal),
        Class::ListOpen => is_list_open(terminal),
        Class::Sign => is_sign(terminal),
        Class::TermOperator => is_term_op(terminal),
        Class::SumOperator => is_sum_op(terminal),
        Class::ComparisonOperator => is_comp_op(terminal),
        Class::ConjunctionOperator => is_conj_op(terminal),
        Class::DisjunctionOperator => is_disj_op(terminal),
        Class::ExpressionOperator => is_expr_op(terminal),
        Class::Set => is_set(terminal),
        Class::Condition => is_condition(terminal),
    }
}

fn is_literal(terminal: Terminal) -> bool
    ensures { result ≡ is_literal terminal }
{
    match terminal {
        Terminal::Whole
        | Terminal::Decimal
        | Terminal::Text
        | Terminal::Symbol
        | Terminal::Nil
        | Terminal::True
        | Terminal::False => true,
        _ => false,
    }
}

fn is_paren_open(terminal: Terminal) -> bool
    ensures { result ≡ is_paren_open terminal }
{
    match terminal {
        Terminal::CallOpen | Terminal::ParenOpen => true,
        _ => false,
    }
}

fn is_list_open(terminal: Terminal) -> bool
    ensures { result ≡ is_list_open terminal }
{
    match terminal {
        Terminal::IndexOpen | Terminal::ListOpen => true,
        _ => false,
    }
}

fn is_sign(terminal: Terminal) -> bool
    ensures { result ≡ is_sign terminal }
{
    match terminal {
        Terminal::Minus | Terminal::TightMinus | Terminal::Bang => true,
        _ => false,
    }
}

fn is_term_op(terminal: Terminal) -> bool
    ensures { result ≡ is_term_op terminal }
{
    match terminal {
        Terminal::Star | Terminal::Slash | Terminal::Percent => true,
        _ => false,
    }
}

fn is_sum_op(terminal: Terminal) -> bool
    ensures { result ≡ is_sum_op terminal }
{
    match terminal {
        Terminal::Plus | Terminal::Minus | Terminal::TightMinus => true,
        _ => false,
    }
}

fn is_comp_op(terminal: Terminal) -> bool
    ensures { result ≡ is_comp_op terminal }
{
    match terminal {
        Terminal::Same
        | Terminal::Differs
        | Terminal::Below
        | Terminal::AtMost
        | Terminal::Above
        | Terminal::AtLeast => true,
        _ => false,
    }
}

fn is_conj_op(terminal: Terminal) -> bool
    ensures { result ≡ is_conj_op terminal }
{
    match terminal {
        Terminal::Both => true,
        _ => false,
    }
}

fn is_disj_op(terminal: Terminal) -> bool
    ensures { result ≡ is_disj_op terminal }
{
    match terminal {
        Terminal::Either => true,
        _ => false,
    }
}

fn is_expr_op(terminal: Terminal) -> bool
    ensures { result ≡ is_expr_op terminal }
{
    match terminal {
        Terminal::And | Terminal::Or => true,
        _ => false,
    }
}

fn is_set(terminal: Terminal) -> bool
    ensures { result ≡ is_set terminal }
{
    match terminal {
        Terminal::Set | Terminal::SetPlus | Terminal::SetMinus | Terminal::SetTimes => true,
        _ => false,
    }
}

fn is_condition(terminal: Terminal) -> bool
    ensures { result ≡ is_condition terminal }
{
    match terminal {
        Terminal::If | Terminal::Unless => true,
        _ => false,
    }
}

/// Whether the terminal makes the name before it the head of a command, where a blank stands between them.
pub fn leads(terminal: Terminal) -> bool
    ensures { result ≡ leads terminal }
{
    match terminal {
        Terminal::Name
        | Terminal::Label
        | Terminal::ListOpen
        | Terminal::ParenOpen
        | Terminal::Bang
        | Terminal::TightMinus => true,
        _ => is_literal(terminal),
    }
}

/// Whether an expression may begin with the terminal, where so many more brackets and blocks may be opened.
pub fn starts_expr(room: u32, terminal: Terminal) -> bool
    ensures { result ≡ ExprStarts (nat_lt 0 room) terminal }
{
    match terminal {
        Terminal::Not | Terminal::Minus | Terminal::TightMinus | Terminal::Bang | Terminal::Name =>
            true,
        Terminal::CallOpen | Terminal::ParenOpen | Terminal::IndexOpen | Terminal::ListOpen => 0
            < room,
        _ => is_literal(terminal),
    }
}

/// Whether an argument may begin with the terminal.
pub fn starts_arg(room: u32, terminal: Terminal) -> bool
    ensures { result ≡ ArgStarts (nat_lt 0 room) terminal }
{
    match terminal {
        Terminal::Label => true,
        _ => starts_expr(room, terminal),
    }
}

/// Whether a statement may begin with the terminal.
pub fn starts_stmt(room: u32, terminal: Terminal) -> bool
    ensures { result ≡ StmtStarts (nat_lt 0 room) terminal }
{
    match terminal {
        Terminal::If | Terminal::Unless => 0 < room,
        _ => starts_expr(room, terminal),
    }
}
