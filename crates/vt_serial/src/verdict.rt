//! Whether a text can be read and is allowed.
ghost use Rattle.std.specs.Prelude.{◌≡◌, ◌≤◌, IfOk, length};
ghost use Rattle.vt_serial.specs.Verdict.{verdict_of};

use std::alloc::Global;
use vt_check::{CheckFault, CheckKind, Checked, check};
use vt_frac::NoMemory;
use vt_lex::{LexFault, LexKind, lex};
use vt_parse::{SyntaxFault, parse};

/// What comes of reading and checking a text.
#[derive(Drop)]
pub enum TextVerdict {
    /// It is read as this tree, and the checks allow it.
    Good(Checked),
    /// It has no tokens: its first fault.
    Lex { line: u32, kind: LexKind },
    /// Its tokens are no piece: the line of the first token with which no text begins, or of the end.
    Syntax { line: u32 },
    /// Its tree is not allowed: the first fault in the order of the tokens, with the line of its statement.
    Check { line: u32, kind: CheckKind },
}

/// The verdict on a text whose first line has this number. It fails only for want of memory.
pub fn judge(alloc: Global, text: &[u8], first_line: u32) -> Result<TextVerdict, NoMemory>
    requires short { length text.now ≤ 1048576 }
    requires first { 1 ≤ first_line }
    requires last { first_line ≤ 1048577 }
    ensures { IfOk result (λ verdict. verdict ≡ verdict_of text.now first_line) }
{
    let tokens = match lex(alloc, text, first_line) {
        Ok(tokens) => tokens,
        Err(LexFault::At { line, kind }) => return Ok(TextVerdict::Lex { line, kind }),
        Err(LexFault::NoMemory) => return Err(NoMemory),
    };
    let tree = match parse(alloc, text, &tokens) {
        Ok(tree) => tree,
        Err(SyntaxFault::At { line }) => return Ok(TextVerdict::Syntax { line }),
        Err(SyntaxFault::NoMemory) => return Err(NoMemory),
    };
    match check(alloc, tree) {
        Ok(checked) => Ok(TextVerdict::Good(checked)),
        Err(CheckFault::At { line, kind }) => Ok(TextVerdict::Check { line, kind }),
        Err(CheckFault::NoMemory) => Err(NoMemory),
    }
}
