//! Laws of sessions. Each function does nothing; its contract is the law.
ghost use Rattle.vt_session.specs.Laws.{AlwaysOne, NotBoth, NothingIsLost, OneBadLine, OneSession, TextOneIsFirst};
ghost use Rattle.vt_session.specs.Verdict.{IsLineWhereBad, IsSessionWhereRead};

/// The lines, one after another, are the bytes.
pub fn nothing_is_lost()
    ensures { NothingIsLost }
{}

/// No lines are two sessions.
pub fn one_session()
    ensures { OneSession }
{}

/// No lines are a session and refused.
pub fn not_both()
    ensures { NotBoth }
{}

/// No lines are refused for two lines.
pub fn one_bad_line()
    ensures { OneBadLine }
{}

/// Lines are a session, or one of them is the first that breaks a rule.
pub fn always_one()
    ensures { AlwaysOne }
{}

/// However lines were judged, their verdict is a session exactly where they are it, and a number exactly where the line of this
/// number is their first bad one.
pub fn verdict_law()
    ensures session { IsSessionWhereRead }
    ensures bad { IsLineWhereBad }
{}

/// The lines before the first directive other than `%session 2` are text 1, behind that line in version 2, also where there
/// are none.
pub fn text_one_is_first()
    ensures { TextOneIsFirst }
{}
