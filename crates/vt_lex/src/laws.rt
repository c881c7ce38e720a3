//! Laws of the definitions. Each is the contract of a function that does nothing.
ghost use Rattle.std.specs.Prelude.{◌≡◌, ◌≤◌, ℕ, true, false, List, [], ◌⊎◌, All, Some, length, take};
ghost use Rattle.vt_frac.specs.Names.{is_among};
ghost use Rattle.vt_lex.specs.Lexing.{Lexes, LexRefuses, HasTokens, IsRefused};
ghost use Rattle.vt_lex.specs.Forms.{HasForm};
ghost use Rattle.vt_lex.specs.Places.{StandsAt, AreInOrder};
ghost use Rattle.vt_lex.specs.Skipped.{IsAllElseSkipped, AreNewlinesDropped};
ghost use Rattle.vt_lex.specs.Lexicon.{first_start, operators};
ghost use Rattle.vt_lex.specs.TokenLaws.{LongestIsTaken, FaultsByReason, RefusedByReason};
ghost use Rattle.vt_lex.specs.declared.token.Token.{Token};
ghost use Rattle.vt_lex.specs.declared.fault.LexKind.{LexKind as Reason};
ghost use Rattle.vt_lex.specs.declared.fault.LexKind.TheVariants.{Byte, Text as Unended, Number, Long};

/// No text has two lists of tokens.
pub fn one_list_law()
    ensures { (text : List ℕ) (first_line : ℕ) (tokens others : List Token)
        → Lexes text first_line tokens → Lexes text first_line others → tokens ≡ others }
{}

/// No text has two first faults.
pub fn one_fault_law()
    ensures { (text : List ℕ) (first_line line other_line : ℕ) (kind other_kind : Reason)
        → LexRefuses text first_line line kind → LexRefuses text first_line other_line other_kind
        → (line ≡ other_line) × (kind ≡ other_kind) }
{}

/// No text has tokens and is refused.
pub fn apart_law()
    ensures { (text : List ℕ) (first_line : ℕ) (tokens : List Token) (line : ℕ) (kind : Reason)
        → Lexes text first_line tokens → LexRefuses text first_line line kind → ⊥ }
{}

/// Each text has tokens or is refused.
pub fn always_law()
    ensures { (text : List ℕ) (first_line : ℕ) → HasTokens text first_line ⊎ IsRefused text first_line }
{}

/// Each token of a text has the form of its kind.
pub fn forms_law()
    ensures { (text : List ℕ) (first_line : ℕ) (tokens : List Token) → Lexes text first_line tokens → All (HasForm text) tokens }
{}

/// Each token of a text stands at its place: its bytes are within the text, its line is the first line with one more for
/// each newline before it, it has a gap where a blank, a newline or nothing stands before it, it is tight where a byte that
/// is neither a blank nor a newline stands behind it, and it ends at or before the place where the next begins.
pub fn places_law()
    ensures stands { (text : List ℕ) (first_line : ℕ) (tokens : List Token)
        → Lexes text first_line tokens → All (StandsAt text first_line) tokens }
    ensures order { (text : List ℕ) (first_line : ℕ) (tokens : List Token) → Lexes text first_line tokens → AreInOrder tokens }
{}

/// Each token of a text is the longest that stands at its place, where no reason of a fault stands. The operator with which bytes
/// are said to begin is the longest.
pub fn longest_law()
    ensures taken { LongestIsTaken }
    ensures operators { (bytes : List ℕ) (len other : ℕ) → first_start operators bytes ≡ Some len
        → other ≤ length bytes → is_among operators (take other bytes) ≡ true → other ≤ len }
{}

/// Where a token is awaited, a fault of each kind comes exactly where its reason stands.
pub fn reason_law()
    ensures text { FaultsByReason Unended }
    ensures long { FaultsByReason Long }
    ensures number { FaultsByReason Number }
    ensures byte { FaultsByReason Byte }
{}

/// A text is refused behind the lexemes that it begins with, where a token is awaited and the reason of the fault stands.
pub fn refused_law()
    ensures { RefusedByReason }
{}

/// Outside of the tokens of a text stand blanks, comments and dropped newlines alone, and no newline that is dropped is a
/// token: in `(` and `[`, and after a token after which the line goes on.
pub fn skipped_law()
    ensures skipped { (text : List ℕ) (first_line : ℕ) (tokens : List Token)
        → Lexes text first_line tokens → IsAllElseSkipped text 0 tokens }
    ensures newlines { (text : List ℕ) (first_line : ℕ) (tokens : List Token)
        → Lexes text first_line tokens → AreNewlinesDropped text 0 [] false tokens }
{}
