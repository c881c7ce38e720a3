//! Texts, each with its tokens, and the values of texts in quotes.
ghost use Rattle.std.specs.Prelude.{◌≤◌, length};

use std::alloc::Global;
use vt_lex::{LexFault, Token, TokenKind, lex, text_value};

/// Texts, each with its tokens behind ` => `, below headings that begin with `// `. In a text `^` is a newline, `~` a carriage
/// return and a backquote a tab. A token is its kind, its bytes, `g` for a gap, `t` for tight, and its line where that is not the
/// line of the token before it. The kinds: `;` newline, n name, l label, k keyword, r reserved word, s symbol, w whole, d
/// decimal, t text, o operator.
const ROWS: &str = r##"// nothing, blanks, comments
 => none
 `~ => none
"é" # é @ => t0-4g
// newlines
^ => ;0-1g
; => ;0-1g
a;b => n0-1gt ;1-2t n2-3
a^^b => n0-1g ;1-2 ;2-3gt@2 n3-4g@3
play 60^ => n0-4g w5-7g ;7-8
a~^b~^ => n0-1g ;2-3gt n3-4g@2 ;5-6g
# c^# d => ;3-4t
x # c^y => n0-1g ;5-6t n6-7g@2
// names, keywords, reserved words
_x9 aZ => n0-3g n4-6g
ends doo => n0-4g n5-8g
__END__^x => n0-7g ;7-8t n8-9g@2
do end if elsif else unless => k0-2g k3-6g k7-9g k10-15g k16-20g k21-27g
and or not nil true false => k0-3g k4-6g k7-10g k11-14g k15-19g k20-25g
while until for case when then return => r0-5g r6-11g r12-15g r16-20g r21-25g r26-30g r31-37g
break next def class module begin rescue => r0-5g r6-10g r11-14g r15-20g r21-27g r28-33g r34-40g
ensure self yield super lambda proc => r0-6g r7-11g r12-17g r18-23g r24-30g r31-35g
// labels and symbols
a: 1 => l0-2g w3-4g
a:b => l0-2gt n2-3
a:1 => l0-2gt w2-3
a: => l0-2g
a: :b => l0-2g s3-5g
if: end:x => l0-3g l4-8gt n8-9
while: => l0-6g
:a => s0-2g
:A_9z => s0-5g
:_ :if => s0-2g s3-6g
:a:b => s0-2gt s2-4
// numbers
0 007 => w0-1g w2-5g
1a => w0-1gt n1-2
1_0 => w0-1gt n1-3
9223372036854775807 => w0-19g
0000000000000000001 => w0-19g
1.5 => d0-3g
1.5.6 => d0-3gt o3-4t w4-5
0.1. => d0-3gt o3-4
1. => w0-1gt o1-2
1. 5 => w0-1gt o1-2 w3-4g
1..2 => w0-1gt o1-2t o2-3t w3-4
1.a => w0-1gt o1-2t n2-3
x.1 => n0-1gt o1-2t w2-3
.5 => o0-1gt w1-2
123456789012345678.5 => d0-20g
0.000000000000000000 => d0-20g
// texts
"" => t0-2g
"a#b" => t0-5g
'it\'s' => t0-7g
"\n\t\\\"" => t0-10g
'\\' => t0-4g
'"' => t0-3g
"'" => t0-3g
"a""b"c => t0-3gt t3-6t n6-7
'#{x}' => t0-6g
"# {" => t0-5g
"#"{ => t0-3gt o3-4
// operators, and where one is cut from the next
+ - * / % == != < <= > >= = += -= *= => o0-1g o2-3g o4-5g o6-7g o8-9g o10-12g o13-15g o16-17g o18-20g o21-22g o23-25g o26-27g o28-30g o31-33g o34-36g
&& || ! ( ) [ ] { } | , . => o0-2g o3-5g o6-7g o8-9g o10-11g o12-13g o14-15g o16-17g o18-19g o20-21g o22-23g o24-25g
=== => o0-2gt o2-3
!== => o0-2gt o2-3
<== => o0-2gt o2-3
>== => o0-2gt o2-3
+== => o0-2gt o2-3
||| => o0-2gt o2-3
=+ => o0-1gt o1-2
/= => o0-1gt o1-2
%= => o0-1gt o1-2
!! => o0-1gt o1-2
-- => o0-1gt o1-2
=> => o0-1gt o1-2
x -1 => n0-1g o2-3gt w3-4
x - 1 => n0-1g o2-3g w4-5g
x-1 => n0-1gt o1-2t w2-3
// newlines that are dropped
(^a^) => o0-1g n2-3g@2 o4-5g@3
[^1,^2]^ => o0-1g w2-3gt@2 o3-4 w5-6gt@3 o6-7 ;7-8
(]^) => o0-1gt o1-2 o3-4g@2
[(]^ => o0-1gt o1-2t o2-3
{(^)^} => o0-1gt o1-2 o3-4g@2 ;4-5t o5-6g@3
+^b => o0-1g n2-3g@2
-^b => o0-1g n2-3g@2
*^b => o0-1g n2-3g@2
/^b => o0-1g n2-3g@2
%^b => o0-1g n2-3g@2
<^b => o0-1g n2-3g@2
>^b => o0-1g n2-3g@2
=^b => o0-1g n2-3g@2
!^b => o0-1g n2-3g@2
,^b => o0-1g n2-3g@2
.^b => o0-1g n2-3g@2
==^b => o0-2g n3-4g@2
!=^b => o0-2g n3-4g@2
<=^b => o0-2g n3-4g@2
>=^b => o0-2g n3-4g@2
+=^b => o0-2g n3-4g@2
-=^b => o0-2g n3-4g@2
*=^b => o0-2g n3-4g@2
&&^b => o0-2g n3-4g@2
||^b => o0-2g n3-4g@2
and^b => k0-3g n4-5g@2
or^b => k0-2g n3-4g@2
not^b => k0-3g n4-5g@2
+ # c^^# d^^b => o0-1g n12-13g@5
// newlines that are kept
{^a^} => o0-1g ;1-2t n2-3g@2 ;3-4t o4-5g@3
({^}) => o0-1gt o1-2 ;2-3t o3-4gt@2 o4-5
()^ => o0-1gt o1-2 ;2-3
[]^ => o0-1gt o1-2 ;2-3
{}^ => o0-1gt o1-2 ;2-3
(;) => o0-1gt ;1-2t o2-3
+;^b => o0-1gt ;1-2 ;2-3t n3-4g@2
,; => o0-1gt ;1-2
a^+b => n0-1g ;1-2t o2-3gt@2 n3-4
|^b => o0-1g ;1-2t n2-3g@2
)^b => o0-1g ;1-2t n2-3g@2
]^b => o0-1g ;1-2t n2-3g@2
}^b => o0-1g ;1-2t n2-3g@2
1^b => w0-1g ;1-2t n2-3g@2
do^b => k0-2g ;2-3t n3-4g@2
nil^b => k0-3g ;3-4t n4-5g@2
for^b => r0-3g ;3-4t n4-5g@2
a:^b => l0-2g ;2-3t n3-4g@2
:and^b => s0-4g ;4-5t n5-6g@2
"+"^b => t0-3g ;3-4t n4-5g@2
// 64 and 65 bytes
aaaaaaaaaaaaaaaaaaaaaaaaaaaaaaaaaaaaaaaaaaaaaaaaaaaaaaaaaaaaaaaa => n0-64g
aaaaaaaaaaaaaaaaaaaaaaaaaaaaaaaaaaaaaaaaaaaaaaaaaaaaaaaaaaaaaaaa: => l0-65g
:aaaaaaaaaaaaaaaaaaaaaaaaaaaaaaaaaaaaaaaaaaaaaaaaaaaaaaaaaaaaaaaa => s0-65g"##;

/// The byte that a byte of a row stands for.
fn byte_of(byte: u8) -> u8 {
    match byte {
        b'^' => b'\n',
        b'~' => b'\r',
        b'`' => b'\t',
        other => other,
    }
}

/// The bytes of the text of a row.
fn text_of(alloc: Global, row: &str) -> Option<Vec<u8>> {
    let mut text = Vec::new(alloc);
    for byte in row.bytes() {
        text.push(byte_of(byte)).ok()?;
    }
    Some(text)
}

fn letter(kind: TokenKind) -> &'static str {
    match kind {
        TokenKind::Newline => ";",
        TokenKind::Name => "n",
        TokenKind::Label => "l",
        TokenKind::Keyword => "k",
        TokenKind::Reserved => "r",
        TokenKind::Symbol => "s",
        TokenKind::Whole => "w",
        TokenKind::Decimal => "d",
        TokenKind::Text => "t",
        TokenKind::Operator => "o",
    }
}

/// The text without its end, and whether it has that end.
fn without<'a>(text: &'a str, end: &str) -> (&'a str, bool) {
    match text.strip_suffix(end) {
        Some(before) => (before, true),
        None => (text, false),
    }
}

/// Whether a token is the one that the word of a row spells, behind one on this line.
fn is_token(token: &Token, word: &str, line: u32) -> Option<bool> {
    let word = word.strip_prefix(letter(token.kind))?;
    let (bytes, line) = match word.split_once('@') {
        Some((bytes, line)) => (bytes, line.parse::<u32>().ok()?),
        None => (word, line),
    };
    let (bytes, tight) = without(bytes, "t");
    let (bytes, gap) = without(bytes, "g");
    let (from, to) = bytes.split_once('-')?;
    let is_there = from.parse::<u32>().ok()? == token.from && to.parse::<u32>().ok()? == token.to;
    Some(is_there && token.line == line && token.gap == gap && token.tight == tight)
}

/// Whether the tokens are those that a row spells.
fn are_tokens(tokens: &[Token], want: &str, first_line: u32) -> bool {
    if want == "none" {
        return tokens.is_empty();
    }
    let mut line = first_line;
    let mut left = tokens;
    for word in want.split(' ') {
        match left.split_first() {
            Some((token, rest)) if is_token(token, word, line) == Some(true) => {
                line = token.line;
                left = rest;
            }
            _ => return false,
        }
    }
    left.is_empty()
}

/// Whether the fault is the one that is spelled.
fn is_fault(fault: LexFault, want: &str) -> Option<bool> {
    let (kind, line) = want.strip_prefix('!')?.split_once('@')?;
    match fault {
        LexFault::At {
            line: at,
            kind: why,
        } => Some(why.word() == kind && line.parse::<u32>().ok()? == at),
        LexFault::NoMemory => None,
    }
}

/// Whether a text whose first line has this number has these tokens, or this fault.
fn has(alloc: Global, text: &[u8], first_line: u32, want: &str) -> bool {
    if text.len() > 1_048_576 || first_line == 0 || first_line > 1_048_577 {
        return false;
    }
    match lex(alloc, text, first_line) {
        Ok(tokens) => are_tokens(tokens.as_slice(), want, first_line),
        Err(fault) => is_fault(fault, want) == Some(true),
    }
}

/// Whether the text of a row has its tokens.
fn holds(alloc: Global, row: &str) -> Option<bool> {
    let (text, want) = row.rsplit_once(" => ")?;
    let text = text_of(alloc, text)?;
    Some(has(alloc, text.as_slice(), 1, want))
}

/// The first row that does not hold, or nothing.
fn first_wrong(alloc: Global) -> Option<&'static str> {
    for row in ROWS.lines() {
        if !row.starts_with("// ") && holds(alloc, row) != Some(true) {
            return Some(row);
        }
    }
    None
}

#[test]
fn each_row_has_its_tokens(rt: HostRuntime) {
    assert_eq!(rt; first_wrong(rt.alloc()), None);
}

#[test]
fn lines_are_counted_from_the_first(rt: HostRuntime) {
    assert!(rt; has(rt.alloc(), b"a\n@", 7, "!byte@8"));
    assert!(rt; has(rt.alloc(), b"a\nb", 1_048_577, "n0-1g ;1-2t n2-3g@1048578"));
}

fn double_quotes_have_their_value(alloc: Global) -> Option<bool> {
    let value = text_value(alloc, b"\"a\\n\\t\\\\\\\"#'\"").ok()?;
    Some(value.as_bytes() == b"a\n\t\\\"#'".as_slice())
}

fn single_quotes_have_their_value(alloc: Global) -> Option<bool> {
    let value = text_value(alloc, b"'it\\'s \\\\ #{\"'").ok()?;
    Some(value.as_bytes() == b"it's \\ #{\"".as_slice())
}

#[test]
fn escapes_stand_for_their_bytes(rt: HostRuntime) {
    assert_eq!(rt; double_quotes_have_their_value(rt.alloc()), Some(true));
    assert_eq!(rt; single_quotes_have_their_value(rt.alloc()), Some(true));
}
