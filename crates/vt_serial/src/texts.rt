//! The texts of a session, ready to be rendered.
ghost use Rattle.std.specs.Prelude.{◌≡◌, ◌∷◌, [], ◌++◌, All, IfOk, OnOk};
ghost use Rattle.vt_session.specs.Sessions.{IsTextPart};
ghost use Rattle.vt_serial.specs.Prepared.{all_prepared, prepared, told_verdict};

use crate::verdict::{TextVerdict, judge};
use std::alloc::Global;
use vt_frac::NoMemory;
use vt_run::{Texts, Verdict};
use vt_session::{Session, TextPart};
use vt_value::FaultKind;

/// The texts of a session, each lexed, parsed and checked, with the time at which it starts. It fails only for want of memory.
pub fn prepare(alloc: Global, session: &Session) -> Result<Texts, NoMemory>
    ensures { IfOk result (λ texts. texts ≡ all_prepared session.now.texts) }
{
    let mut texts = Texts::new(alloc);
    push_all(alloc, &mut texts, session.texts().as_slice())?;
    Ok(texts)
}

/// Adds the texts, in their order.
fn push_all(alloc: Global, texts: &mut Texts, parts: &[TextPart]) -> Result<(), NoMemory>
    requires { All IsTextPart parts.now }
    ensures { OnOk result (texts.new ≡ texts.old ++ all_prepared parts.now) }
{
    let mut left = parts;
    'parts: while let Some((part, rest)) = left.split_first() {
        push_text(alloc, texts, part)?;
        left = rest;
    }
    Ok(())
}

/// Adds one text.
fn push_text(alloc: Global, texts: &mut Texts, part: &TextPart) -> Result<(), NoMemory>
    requires { IsTextPart part.now }
    ensures { OnOk result (texts.new ≡ texts.old ++ prepared part.now ∷ []) }
{
    let verdict = judge(alloc, part.text.as_bytes(), part.first_line)?;
    texts.push(part.time, told_verdict(verdict))
}

/// The verdict as what is rendered tells it.
fn told_verdict(verdict: TextVerdict) -> Verdict
    ensures { result ≡ told_verdict verdict }
{
    match verdict {
        TextVerdict::Good(tree) => Verdict::Good(tree),
        TextVerdict::Lex { line, .. } => Verdict::Bad {
            kind: FaultKind::Lex,
            line,
        },
        TextVerdict::Syntax { line } => Verdict::Bad {
            kind: FaultKind::Syntax,
            line,
        },
        TextVerdict::Check { line, .. } => Verdict::Bad {
            kind: FaultKind::Check,
            line,
        },
    }
}
