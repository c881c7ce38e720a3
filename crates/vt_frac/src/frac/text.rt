//! Fractions as text.

ghost use Rattle.std.specs.Prelude.{◌≡◌, ◌++◌, IfOk, OnOk, OnErr};
ghost use Rattle.vt_frac.specs.Text.{fraction_text};

use super::Frac;
use crate::NoMemory;
use itoa::Buffer;
use std::alloc::Global;

impl Frac {
    /// Appends `n`, or `n/d` where d is above 1.
    pub fn write(&self, alloc: Global, out: &mut Vec<u8>) -> Result<(), NoMemory>
        ensures text { OnOk result (out.new.items ≡ out.old.items ++ fraction_text self.now) }
        ensures unchanged { OnErr result (out.new.items ≡ out.old.items) }
    {
        let text = self.text(alloc)?;
        out.extend_from_slice(text.as_slice())?;
        Ok(())
    }

    fn text(&self, alloc: Global) -> Result<Vec<u8>, NoMemory>
        ensures { IfOk result (λ text. text.items ≡ fraction_text self.now) }
    {
        let mut buffer = Buffer::new();
        let mut text = Vec::from_slice(alloc, buffer.format(self.numer).as_bytes())?;
        if self.denom == 1 {
            return Ok(text);
        }
        text.push(b'/')?;
        text.extend_from_slice(buffer.format(self.denom).as_bytes())?;
        Ok(text)
    }
}
