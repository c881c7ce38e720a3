//! What the lexer leaves is what the parser asks for.
ghost use Rattle.std.specs.Prelude.{ℕ, List, length, ◌≤◌};
ghost use Rattle.vt_lex.specs.declared.token.Token.{Token};
ghost use Rattle.vt_lex.specs.Lexing.{Lexes};
ghost use Rattle.vt_grammar.specs.Tokens.{AreTokens};

/// The tokens of a lexed text are tokens as `parse` wants them, and no more than the text has bytes.
pub fn lexed_law()
    ensures tokens { (text : List ℕ) (first_line : ℕ) (tokens : List Token) → Lexes text first_line tokens → AreTokens text tokens }
    ensures few { (text : List ℕ) (first_line : ℕ) (tokens : List Token) → Lexes text first_line tokens → length tokens ≤ length text }
{}
