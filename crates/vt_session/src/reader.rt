//! Reads a session, line by line.
ghost use Rattle.std.specs.Prelude.{◌≡◌, ◌+◌, ◌≤◌, ◌<◌, ◌++◌, ◌||◌, [], ℕ, pos, is_some, not, List, false, length, IfErr, IfOk, OnOk};
ghost use Rattle.std.specs.List.{list_all};
ghost use Rattle.std.specs.Option.{option_map};
ghost use Rattle.std.specs.Ordering.{is_lt};
ghost use Rattle.vt_frac.specs.Fraction.{whole};
ghost use Rattle.vt_frac.specs.Names.{begins};
ghost use Rattle.vt_frac.specs.Order.{order_of};
ghost use Rattle.vt_lex.specs.Bytes.{is_space};
ghost use Rattle.vt_session.specs.Directives.{AtLine, HasForm, Line, PlainLine, VersionLine, is_percent};
ghost use Rattle.vt_session.specs.Lines.{lines_of};
ghost use Rattle.vt_session.specs.Sessions.{IsRefusal, IsSession, IsSound, session_of};
ghost use Rattle.vt_session.specs.private.Reading.{input_line, line_of};
ghost use Rattle.vt_session.specs.private.Standing.{Holds, IsLineRead, IsTaken, IsTime, IsWhole, closed_with, is_of_version_2, open_of, open_texts, standing_of, with_line};

use crate::bytes::are_spaces;
use crate::directive::{Deed, Directive, input_event, read_directive};
use crate::lines::split_line;
use crate::{Session, SessionFault, TextPart, TextParts};
use std::alloc::Global;
use vt_event::{Event, Inputs};
use vt_frac::{Frac, Name, NoMemory};

/// A text of which some lines are read.
#[derive(Drop)]
pub(crate) struct OpenText {
    time: Frac,
    first_line: u32,
    bytes: Vec<u8>,
}

/// What the lines so far are.
#[derive(Drop)]
pub(crate) struct Reader {
    /// How many lines are read.
    number: u32,
    /// Whether the session is one of version 2.
    version_2: bool,
    /// The time of the last directive, and 0 before the first.
    last: Frac,
    /// The texts that have ended.
    texts: Vec<TextPart>,
    /// The text to which the next lines belong; none behind an input.
    open_text: Option<OpenText>,
    /// The inputs so far.
    inputs: Vec<Event>,
}

/// The session of the bytes, or the first line that breaks a rule of sessions.
///
/// `NoMemory` says that memory is wanting; no clause says where.
pub fn read_session(alloc: Global, bytes: &[u8]) -> Result<Session, SessionFault>
    requires { length bytes.now ≤ 1048576 }
    ensures session { IfOk result (λ session. IsSession (lines_of bytes.now) session) }
    ensures sound { IfOk result (λ session. IsSound session) }
    ensures refused { IfErr result (λ fault. IsRefusal (lines_of bytes.now) fault) }
{
    let mut reader = Reader::new(alloc);
    let mut left = bytes;
    'lines: while !left.is_empty() {
        let (line, rest) = split_line(left);
        match reader.read_line(alloc, line) {
            Ok(()) => left = rest,
            Err(fault) => return Err(fault),
        }
    }
    reader.finish(alloc)
}

impl Reader {
    /// Before the first line.
    fn new(alloc: Global) -> Reader
        ensures { Holds [] (standing_of result) }
    {
        Reader {
            number: 0,
            version_2: false,
            last: zero(),
            texts: Vec::new(alloc),
            open_text: Some(OpenText {
                time: zero(),
                first_line: 1,
                bytes: Vec::new(alloc),
            }),
            inputs: Vec::new(alloc),
        }
    }

    /// Reads the next line.
    fn read_line(&mut self, alloc: Global, line: &[u8]) -> Result<(), SessionFault>
        requires few { self.old.number < 1048576 }
        requires inputs { length self.old.inputs.items ≤ self.old.number }
        requires short { length line.now ≤ 1048576 }
        ensures { (before : List Line) → Holds before (standing_of self.old) → IsLineRead before line.now result (standing_of self.new) }
    {
        if !begins_percent(line) {
            return self.take_plain(line);
        }
        match read_directive(alloc, line)? {
            Some(directive) => self.take_directive(alloc, directive),
            None => Err(self.bad()),
        }
    }

    /// Takes a line that is no directive.
    fn take_plain(&mut self, line: &[u8]) -> Result<(), SessionFault>
        requires few { self.old.number < 1048576 }
        requires plain { begins is_percent line.now ≡ false }
        ensures { (before : List Line) → Holds before (standing_of self.old) → IsTaken before (PlainLine line.now) result (standing_of self.new) }
    {
        if !may_add(&self.open_text, line) {
            return Err(self.bad());
        }
        self.number += 1;
        add_line(&mut self.open_text, line)?;
        Ok(())
    }

    /// Takes a directive.
    fn take_directive(&mut self, alloc: Global, directive: Directive) -> Result<(), SessionFault>
        requires few { self.old.number < 1048576 }
        requires inputs { length self.old.inputs.items ≤ self.old.number }
        ensures { (before : List Line) (line : List ℕ) → Holds before (standing_of self.old) → HasForm (line_of directive) line → IsTaken before (line_of directive) result (standing_of self.new) }
    {
        match directive {
            Directive::Version => self.take_version(alloc),
            Directive::At(time) => self.take_at(alloc, time),
            Directive::Input(time, deed) => self.take_input(alloc, time, deed),
        }
    }

    /// Takes the line that makes the session one of version 2.
    fn take_version(&mut self, alloc: Global) -> Result<(), SessionFault>
        requires few { self.old.number < 1048576 }
        ensures { (before : List Line) → Holds before (standing_of self.old) → IsTaken before VersionLine result (standing_of self.new) }
    {
        if self.number != 0 {
            return Err(self.bad());
        }
        self.number = 1;
        self.version_2 = true;
        self.open_text = Some(open_at(alloc, zero(), 2));
        Ok(())
    }

    /// Takes a line with which a text begins.
    fn take_at(&mut self, alloc: Global, time: Frac) -> Result<(), SessionFault>
        requires few { self.old.number < 1048576 }
        ensures { (before : List Line) → Holds before (standing_of self.old) → IsTime time → IsTaken before (AtLine time) result (standing_of self.new) }
    {
        if is_before(&time, &self.last) {
            return Err(self.bad());
        }
        push_text(alloc, &mut self.texts, self.open_text.take())?;
        self.number += 1;
        self.last = time;
        self.open_text = Some(open_at(alloc, time, self.number + 1));
        Ok(())
    }

    /// Takes a line with which something is given.
    fn take_input(&mut self, alloc: Global, time: Frac, deed: Deed) -> Result<(), SessionFault>
        requires few { self.old.number < 1048576 }
        requires inputs { length self.old.inputs.items ≤ self.old.number }
        ensures { (before : List Line) → Holds before (standing_of self.old) → IsTime time → IsTaken before (input_line time deed) result (standing_of self.new) }
    {
        if is_before(&time, &self.last) {
            return Err(self.bad());
        }
        if !may_give(self.version_2, &deed) {
            return Err(self.bad());
        }
        push_text(alloc, &mut self.texts, self.open_text.take())?;
        let number = self.inputs.len() as u32 + 1;
        self.inputs.push(input_event(alloc, number, time, deed)?)?;
        self.number += 1;
        self.last = time;
        Ok(())
    }

    /// That the next line breaks a rule.
    fn bad(&self) -> SessionFault
        requires { self.now.number < 1048576 }
        ensures { result ≡ SessionFault.BadSession (self.now.number + 1) }
    {
        SessionFault::BadSession {
            line: self.number + 1,
        }
    }

    /// The session, once all lines are read.
    fn finish(self, alloc: Global) -> Result<Session, SessionFault>
        requires { IsWhole (standing_of self) }
        ensures ok { IfOk result (λ session. (what : List Line) → Holds what (standing_of self) → session ≡ session_of what) }
        ensures err { IfErr result (λ fault. fault ≡ SessionFault.NoMemory) }
    {
        let Reader {
            mut texts,
            open_text,
            inputs,
            ..
        } = self;
        push_text(alloc, &mut texts, open_text)?;
        Ok(Session::of(TextParts::from_vec(texts), Inputs::from_vec(inputs)))
    }
}

/// The time of what comes before all directives.
fn zero() -> Frac
    ensures { result ≡ whole (pos 0) }
{
    match Frac::new(0, 1) {
        Ok(zero) => zero,
        Err(_) => unreachable!(),
    }
}

/// Whether one time is below another.
fn is_before(time: &Frac, other: &Frac) -> bool
    ensures { result ≡ is_lt (order_of time.now other.now) }
{
    time.cmp(other).is_lt()
}

fn begins_percent(line: &[u8]) -> bool
    ensures { result ≡ begins is_percent line.now }
{
    match line {
        [] => false,
        [first, ..] => *first == b'%',
    }
}

/// Whether a line may stand here that is no directive: in a text, or else one of blanks.
fn may_add(open_text: &Option<OpenText>, line: &[u8]) -> bool
    ensures { result ≡ (is_some (option_map open_of open_text.now) || list_all is_space line.now) }
{
    match open_text {
        Some(_) => true,
        None => are_spaces(line),
    }
}

/// Whether this may be given: all of it in version 2, and else what is not of version 2.
fn may_give(version_2: bool, deed: &Deed) -> bool
    ensures { result ≡ (version_2 || not (is_of_version_2 deed.now)) }
{
    version_2 || !is_of_version_2(deed)
}

/// Whether only version 2 has it.
fn is_of_version_2(deed: &Deed) -> bool
    ensures { result ≡ is_of_version_2 deed.now }
{
    match deed {
        Deed::Cue(_, _) => false,
        Deed::Set(_, _) => true,
        Deed::Stop(_) => true,
    }
}

/// A text that begins here, of which nothing is read.
fn open_at(alloc: Global, time: Frac, first_line: u32) -> OpenText
    ensures { open_of result ≡ record { time = time; first_line = first_line; bytes = [] } }
{
    OpenText {
        time,
        first_line,
        bytes: Vec::new(alloc),
    }
}

/// Adds a line to the text that is open, if one is.
fn add_line(open_text: &mut Option<OpenText>, line: &[u8]) -> Result<(), NoMemory>
    ensures { OnOk result (option_map open_of open_text.new ≡ with_line (option_map open_of open_text.old) line.now) }
{
    if let Some(text) = open_text {
        text.bytes.extend_from_slice(line)?;
    }
    Ok(())
}

/// Adds the text that was open, if one was, to the texts that have ended.
fn push_text(
    alloc: Global,
    texts: &mut Vec<TextPart>,
    open_text: Option<OpenText>,
) -> Result<(), NoMemory>
    ensures { OnOk result (texts.new.items ≡ texts.old.items ++ open_texts (option_map open_of open_text) []) }
{
    match open_text {
        Some(text) => {
            texts.push(text_part(alloc, text)?)?;
            Ok(())
        }
        None => Ok(()),
    }
}

/// A text as it ends.
fn text_part(alloc: Global, text: OpenText) -> Result<TextPart, NoMemory>
    ensures { IfOk result (λ part. part ≡ closed_with (open_of text) []) }
{
    Ok(TextPart {
        time: text.time,
        first_line: text.first_line,
        text: Name::of(alloc, text.bytes.as_slice())?,
    })
}
