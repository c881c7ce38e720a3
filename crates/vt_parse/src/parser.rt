//! The tokens that are left of a text, and what stands first in them.
ghost use Rattle.std.specs.Prelude.{◌≡◌, ℕ, ◌∷◌, ◌<◌, ◌+◌, ◌^◌, length, Some};
ghost use Rattle.vt_grammar.specs.Grammar.{among, first_line, terminal as terminal_of_grammar};
ghost use Rattle.vt_grammar.specs.Values.{HasValue};
ghost use Rattle.std.specs.Prelude.{IfOk};
ghost use Rattle.vt_grammar.specs.Form.{mapped};
ghost use Rattle.vt_grammar.specs.Marks.{marked};
ghost use Rattle.vt_grammar.specs.Tokens.{AreTokens, spelled};
ghost use Rattle.vt_parse.specs.private.Parses.{Parses, is_assign, is_command, leads_second, peeked, peeked_second, sets_second, peeked_line, peeked_in};
ghost use Rattle.vt_grammar.specs.private.Sets.{ArgStarts, ExprStarts, PartStarts, StmtStarts, just, with_room};
ghost use Rattle.std.specs.Prelude.{◌&&◌, nat_lt};
ghost use Rattle.vt_build.specs.private.Classes.{class_terminals};

use crate::seen::Seen;
use sqlite_items::Boxed;
use std::marker::Model;
use vt_build::{
    Class, Fault, is_of, leads, number_with, same, starts_arg, starts_expr, starts_stmt,
    terminal_at,
};
use vt_grammar::Terminal;
use vt_lex::Token;
use vt_tree::Expr;

/// The tokens that are left of a text, and how many blocks have begun before them.
#[derive(Drop)]
pub struct Parser<'a> {
    text: &'a [u8],
    rest: &'a [Token],
    blocks: u32,
}

impl<'a> Model for Parser<'a> {
    ghost use Rattle.std.specs.Prelude.{ℕ, List, length, ◌<◌, ◌+◌, ◌^◌};
    ghost use Rattle.vt_grammar.specs.Marks.{Mark, marked};
    ghost use Rattle.vt_grammar.specs.Tokens.{AreTokens, spelled};

    ghost Value = { List Mark };

    ghost view = { λ p. marked p.blocks (spelled p.text.now p.rest.now) };

    ghost invariant = { λ p. AreTokens p.text.now p.rest.now × (p.blocks + length p.rest.now < 2 ^ 32) };
}

impl<'a> Parser<'a> {
    pub(crate) fn new(text: &'a [u8], tokens: &'a [Token]) -> Parser<'a>
        requires tokens { AreTokens text.now tokens.now }
        requires short { length tokens.now < 2 ^ 32 }
        ensures { result ≡ marked 0 (spelled text.now tokens.now) }
    {
        Parser {
            text,
            rest: tokens,
            blocks: 0,
        }
    }

    /// The line of the token that stands here.
    pub(crate) fn line_here(&self) -> Option<u32>
        ensures { result ≡ peeked_line self.now }
    {
        match self.rest {
            [t, ..] => Some(t.line),
            [] => None,
        }
    }

    /// The terminal of the token that stands here.
    fn peek(&self) -> Option<Terminal>
        ensures { result ≡ peeked self.now }
    {
        match self.rest {
            [t, ..] => Some(terminal_at(
                t.kind,
                t.gap,
                t.tight,
                &self.text[t.from as usize..t.to as usize],
            )),
            [] => None,
        }
    }

    /// Whether a blank stands before the second token from here, and its terminal.
    fn peek_second(&self) -> Option<(bool, Terminal)>
        ensures { result ≡ peeked_second self.now }
    {
        match self.rest {
            [_, t, ..] => Some((
                t.gap,
                terminal_at(
                    t.kind,
                    t.gap,
                    t.tight,
                    &self.text[t.from as usize..t.to as usize],
                ),
            )),
            _ => None,
        }
    }

    /// The line of the token that stands here, or 0.
    pub(crate) fn line(&self) -> u32
        ensures { result ≡ first_line self.now }
    {
        match self.line_here() {
            Some(line) => line,
            None => 0,
        }
    }

    /// Whether the name that stands here is the head of a command, and an argument may begin after it.
    pub(crate) fn is_command(&self, room: u32) -> bool
        ensures { result ≡ is_command (nat_lt 0 room) self.now }
    {
        self.at(Terminal::Name) && leads_second(room, self.peek_second())
    }

    /// Whether an assignment begins here.
    pub(crate) fn is_assign(&self) -> bool
        ensures { result ≡ is_assign self.now }
    {
        self.at(Terminal::Name) && sets_second(self.peek_second())
    }

    /// The token that stands here, which is passed.
    fn bump(&mut self) -> Seen<'a>
        requires { 0 < length self.old }
        ensures passed { self.old ≡ result ∷ self.new }
        ensures value { HasValue result.terminal result.bytes }
    {
        match self.rest {
            [t, rest @ ..] => {
                let bytes = &self.text[t.from as usize..t.to as usize];
                let terminal = terminal_at(t.kind, t.gap, t.tight, bytes);
                self.blocks = number_with(self.blocks, terminal);
                self.rest = rest;
                Seen {
                    terminal,
                    line: t.line,
                    gap: t.gap,
                    bytes,
                    number: self.blocks,
                }
            }
            [] => unreachable!(),
        }
    }

    /// Whether a token of this terminal stands here.
    pub(crate) fn at(&self, terminal: Terminal) -> bool
        ensures { result ≡ peeked_in (just terminal) self.now }
    {
        match self.peek() {
            Some(here) => same(terminal, here),
            None => false,
        }
    }

    /// Whether a token of a terminal of this class stands here.
    pub(crate) fn at_class(&self, class: Class) -> bool
        ensures { result ≡ peeked_in (class_terminals class) self.now }
    {
        match self.peek() {
            Some(here) => is_of(class, here),
            None => false,
        }
    }

    /// Whether a token of this terminal stands here, and something more may be opened.
    pub(crate) fn opens(&self, terminal: Terminal, room: u32) -> bool
        ensures { result ≡ peeked_in (with_room (nat_lt 0 room) (just terminal)) self.now }
    {
        match self.peek() {
            Some(here) => same(terminal, here) && 0 < room,
            None => false,
        }
    }

    /// Whether an expression may begin here.
    pub(crate) fn at_expr(&self, room: u32) -> bool
        ensures { result ≡ peeked_in (ExprStarts (nat_lt 0 room)) self.now }
    {
        match self.peek() {
            Some(here) => starts_expr(room, here),
            None => false,
        }
    }

    /// Whether an argument may begin here.
    pub(crate) fn at_arg(&self, room: u32) -> bool
        ensures { result ≡ peeked_in (ArgStarts (nat_lt 0 room)) self.now }
    {
        match self.peek() {
            Some(here) => starts_arg(room, here),
            None => false,
        }
    }

    /// Whether a statement may begin here.
    pub(crate) fn at_stmt(&self, room: u32) -> bool
        ensures { result ≡ peeked_in (StmtStarts (nat_lt 0 room)) self.now }
    {
        match self.peek() {
            Some(here) => starts_stmt(room, here),
            None => false,
        }
    }

    /// Whether an index or a dot may begin here, where so many more may follow.
    pub(crate) fn takes_part(&self, left: u32, room: u32) -> bool
        ensures { result ≡ (nat_lt 0 left && peeked_in (PartStarts (nat_lt 0 room)) self.now) }
    {
        0 < left && self.at_part(room)
    }

    /// Whether an index or a dot may begin here.
    fn at_part(&self, room: u32) -> bool
        ensures { result ≡ peeked_in (PartStarts (nat_lt 0 room)) self.now }
    {
        match self.peek() {
            Some(Terminal::Dot) => true,
            Some(Terminal::IndexOpen) => 0 < room,
            Some(_) => false,
            None => false,
        }
    }

    /// The token, where it has this terminal.
    pub(crate) fn expect(&mut self, terminal: Terminal) -> Result<Seen<'a>, Fault>
        ensures { Parses (terminal_of_grammar terminal) self.old self.new result }
    {
        if self.at(terminal) {
            Ok(self.bump())
        } else {
            Err(Fault::Here)
        }
    }

    /// The value, where a token of this terminal follows it.
    pub(crate) fn followed(
        &mut self,
        value: Boxed<Expr>,
        terminal: Terminal,
    ) -> Result<Boxed<Expr>, Fault>
        ensures { Parses (mapped (λ _. value) (terminal_of_grammar terminal)) self.old self.new result }
    {
        if self.at(terminal) {
            self.bump();
            Ok(value)
        } else {
            Err(Fault::Here)
        }
    }

    /// The token, where its terminal is of this class.
    pub(crate) fn expect_class(&mut self, class: Class) -> Result<Seen<'a>, Fault>
        ensures token { Parses (among (class_terminals class)) self.old self.new result }
        ensures value { IfOk result (λ token. HasValue token.terminal token.bytes) }
    {
        if self.at_class(class) {
            Ok(self.bump())
        } else {
            Err(Fault::Here)
        }
    }
}

fn leads_second(room: u32, second: Option<(bool, Terminal)>) -> bool
    ensures { result ≡ leads_second (nat_lt 0 room) second }
{
    match second {
        Some((gap, terminal)) => gap && leads(terminal) && starts_arg(room, terminal),
        None => false,
    }
}

fn sets_second(second: Option<(bool, Terminal)>) -> bool
    ensures { result ≡ sets_second second }
{
    match second {
        Some((_, terminal)) => is_of(Class::Set, terminal),
        None => false,
    }
}
