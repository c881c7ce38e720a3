//! The context in which a part of a tree stands.

ghost use Rattle.std.specs.Prelude.{◌≡◌};
ghost use Rattle.vt_tree.specs.Parts.{after_dot, at_line, in_text, inside};

use std::marker::Model;

/// The context in which a part of a tree stands. Contracts see it as the definitions do.
#[derive(Clone, Copy)]
pub(crate) struct Context {
    /// The line of the innermost statement round it.
    pub(crate) line: u32,
    /// Whether it is a whole statement of the text itself, with or without a condition after it.
    pub(crate) outermost: bool,
    /// Whether a dot stands before it.
    pub(crate) dotted: bool,
}

impl Model for Context {
    ghost use Rattle.vt_tree.specs.Parts.{Context as PartContext};

    ghost Value = { PartContext };

    ghost view = { λ context. record { line = context.line; outermost = context.outermost; dotted = context.dotted } };

    ghost inverse = { λ context. record { line = context.line; outermost = context.outermost; dotted = context.dotted } };
}

impl Context {
    /// The context of the statements of the text itself.
    pub(crate) fn of_text() -> Context
        ensures { result ≡ in_text }
    {
        Context {
            line: 0,
            outermost: true,
            dotted: false,
        }
    }

    pub(crate) fn inside(self) -> Context
        ensures { result ≡ inside self }
    {
        Context {
            line: self.line,
            outermost: false,
            dotted: false,
        }
    }

    pub(crate) fn after_dot(self) -> Context
        ensures { result ≡ after_dot self }
    {
        Context {
            line: self.line,
            outermost: false,
            dotted: true,
        }
    }

    /// A statement here that begins on this line.
    pub(crate) fn at_line(self, line: u32) -> Context
        ensures { result ≡ at_line line self }
    {
        Context {
            line,
            outermost: self.outermost,
            dotted: false,
        }
    }
}
