//! The texts of a session.
ghost use Rattle.std.specs.Prelude.{◌≡◌};

use std::marker::Model;
use vt_frac::{Frac, Name};

/// A text of a session: from which time on it runs, and where it stands.
#[derive(Drop)]
pub struct TextPart {
    /// The time at which it begins, in seconds.
    pub time: Frac,
    /// The number of its first line in the input, from 1, also where it has no line.
    pub first_line: u32,
    /// Its bytes.
    pub text: Name,
}

/// Texts, in the order of the input. Contracts see them as that list.
#[derive(Drop)]
pub struct TextParts {
    parts: Vec<TextPart>,
}

impl Model for TextParts {
    ghost use Rattle.std.specs.Prelude.{List};
    ghost use Rattle.vt_session.specs.declared.text_part.TextPart.{TextPart};

    ghost Value = { List TextPart };

    ghost view = { λ texts. texts.parts.items };
}

impl TextParts {
    /// The list of the texts of a `Vec`.
    pub(crate) fn from_vec(parts: Vec<TextPart>) -> TextParts
        ensures { result ≡ parts.items }
    {
        TextParts { parts }
    }

    /// The texts in order.
    pub fn as_slice(&self) -> &[TextPart]
        ensures { result.now ≡ self.now }
    {
        self.parts.as_slice()
    }
}
