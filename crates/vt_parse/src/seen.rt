//! A token that was passed.

use std::marker::Model;
use vt_grammar::Terminal;

/// A token that was passed. Contracts see it as the rules do.
#[derive(Drop)]
pub struct Seen<'a> {
    pub terminal: Terminal,
    pub line: u32,
    pub gap: bool,
    pub bytes: &'a [u8],
    pub number: u32,
}

impl<'a> Model for Seen<'a> {
    ghost use Rattle.vt_grammar.specs.Marks.{Mark};

    ghost Value = { Mark };

    ghost view = { λ s. record { terminal = s.terminal; line = s.line; gap = s.gap; bytes = s.bytes.now; number = s.number } };
}
