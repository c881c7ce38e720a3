//! The words and operators of the language, and which of them bytes are.
ghost use Rattle.std.specs.Prelude.{◌≡◌, length};
ghost use Rattle.vt_frac.specs.Names.{is_among, keywords, reserved};
ghost use Rattle.vt_lex.specs.Lexicon.{first_start, operators, joining};
ghost use Rattle.vt_lex.specs.private.Spelled.{spelled};

/// The keywords after which a line goes on.
static JOINING_KEYWORDS: [&[u8]; 3] = [b"and", b"or", b"not"];

/// The other keywords.
static PLAIN_KEYWORDS: [&[u8]; 9] = [
    b"do", b"end", b"if", b"elsif", b"else", b"unless", b"nil", b"true", b"false",
];

/// Words that are kept for later and are no names.
static RESERVED: [&[u8]; 20] = [
    b"while", b"until", b"for", b"case", b"when", b"then", b"return", b"break", b"next", b"def",
    b"class", b"module", b"begin", b"rescue", b"ensure", b"self", b"yield", b"super", b"lambda",
    b"proc",
];

/// The operators after which a line goes on. One that begins with another stands before it.
static JOINING_OPERATORS: [&[u8]; 20] = [
    b"==", b"!=", b"<=", b">=", b"+=", b"-=", b"*=", b"&&", b"||", b"+", b"-", b"*", b"/", b"%",
    b"<", b">", b"=", b"!", b",", b".",
];

/// The other operators.
static PLAIN_OPERATORS: [&[u8]; 7] = [b"|", b"(", b")", b"[", b"]", b"{", b"}"];

/// Whether the word is one of these.
fn is_among(words: &[&[u8]], word: &[u8]) -> bool
    ensures { result ≡ is_among (spelled words.now) word.now }
{
    for other in words {
        if *other == word {
            return true;
        }
    }
    false
}

/// The length of the first of these with which the bytes begin.
fn first_start(forms: &[&[u8]], bytes: &[u8]) -> Option<usize>
    ensures { result ≡ first_start (spelled forms.now) bytes.now }
{
    for form in forms {
        if bytes.starts_with(form) {
            return Some(form.len());
        }
    }
    None
}

/// Whether a line goes on after this token.
pub(crate) fn is_joining(token: &[u8]) -> bool
    ensures { result ≡ is_among joining token.now }
{
    is_among(&JOINING_OPERATORS, token) || is_among(&JOINING_KEYWORDS, token)
}

pub(crate) fn is_keyword(word: &[u8]) -> bool
    ensures { result ≡ is_among keywords word.now }
{
    is_among(&PLAIN_KEYWORDS, word) || is_among(&JOINING_KEYWORDS, word)
}

pub(crate) fn is_reserved(word: &[u8]) -> bool
    ensures { result ≡ is_among reserved word.now }
{
    is_among(&RESERVED, word)
}

/// The length of the operator that stands at the head.
pub(crate) fn operator_len(bytes: &[u8]) -> Option<usize>
    ensures { result ≡ first_start operators bytes.now }
{
    match first_start(&JOINING_OPERATORS, bytes) {
        Some(len) => Some(len),
        None => first_start(&PLAIN_OPERATORS, bytes),
    }
}
