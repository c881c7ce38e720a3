//! What the rules of the grammar see of a token.
/// What a token is to the grammar. Two terminals stand for one spelling where what is round it decides.
#[derive(Clone, Copy, PartialEq, Eq)]
pub enum Terminal {
    /// A newline or `;`.
    Newline,
    /// A name.
    Name,
    /// A name with a colon, before an argument.
    Label,
    /// Values that stand in the text.
    Whole,
    Decimal,
    Text,
    Symbol,
    Nil,
    True,
    False,
    /// Keywords.
    Do,
    End,
    If,
    Elsif,
    Else,
    Unless,
    And,
    Or,
    Not,
    /// `+` and `-`. `TightMinus`: a blank stands before it and none after it.
    Plus,
    Minus,
    TightMinus,
    /// `*`, `/`, `%`.
    Star,
    Slash,
    Percent,
    /// `==`, `!=`, `<`, `<=`, `>`, `>=`.
    Same,
    Differs,
    Below,
    AtMost,
    Above,
    AtLeast,
    /// `=`, `+=`, `-=`, `*=`.
    Set,
    SetPlus,
    SetMinus,
    SetTimes,
    /// `&&`, `||`, `!`.
    Both,
    Either,
    Bang,
    /// `(` without a gap, `(` with one, `)`.
    CallOpen,
    ParenOpen,
    ParenClose,
    /// `[` without a gap, `[` with one, `]`.
    IndexOpen,
    ListOpen,
    ListClose,
    /// `{`, `}`.
    BraceOpen,
    BraceClose,
    /// `|`, `,`, `.`.
    Bar,
    Comma,
    Dot,
    /// A reserved word, and whatever else no form has.
    Other,
}
