//! Where a part of a text stands.

ghost use Rattle.std.specs.Prelude.{◌≡◌, None, Some, cond, nat_le};
ghost use Rattle.vt_eval_steps.specs.Scenes.{deeper_of, inside_of};

use std::marker::Model;

/// How deep anything may stand.
const DEEPEST: u32 = 256;

/// Where a part of a text stands: how deep, and in the statement of which line. Contracts see it as that record.
#[derive(Clone, Copy)]
pub struct Spot {
    depth: u32,
    line: u32,
}

impl Model for Spot {
    ghost use Rattle.vt_run.specs.Evaluation as evaluation;

    ghost Value = { evaluation.Spot };

    ghost view = { λ spot. record { depth = spot.depth; line = spot.line } };

    ghost inverse = { λ spot. record { depth = spot.depth; line = spot.line } };
}

impl Spot {
    /// At depth 0, in the statement of this line.
    pub fn new(line: u32) -> Spot
        ensures { result ≡ record { depth = 0; line = line } }
    {
        Spot { depth: 0, line }
    }

    /// The line of the statement.
    pub fn line(self) -> u32
        ensures { result ≡ self.line }
    {
        self.line
    }

    /// As deep, in the statement of this line.
    pub fn at_line(self, line: u32) -> Spot
        ensures { result ≡ record self { line = line } }
    {
        Spot {
            depth: self.depth,
            line,
        }
    }

    /// One deeper, or `None` where that is too deep.
    pub fn deeper(self) -> Option<Spot>
        ensures { result ≡ deeper_of self }
    {
        if self.depth < DEEPEST {
            Some(Spot {
                depth: self.depth + 1,
                line: self.line,
            })
        } else {
            None
        }
    }

    /// Deeper by so many pairs of parentheses, or `None` where that is too deep.
    pub fn inside(self, pairs: u32) -> Option<Spot>
        ensures { result ≡ inside_of pairs self }
    {
        if pairs == 0 {
            return Some(self);
        }
        match self.depth.checked_add(pairs) {
            Some(depth) => within(depth, self.line),
            None => None,
        }
    }
}

/// At this depth, or `None` where that is too deep.
fn within(depth: u32, line: u32) -> Option<Spot>
    ensures { result ≡ cond (nat_le depth 256) (Some (record { depth = depth; line = line })) None }
{
    if depth <= DEEPEST {
        Some(Spot { depth, line })
    } else {
        None
    }
}
