//! Bytes and fills as the language writes them.

ghost use Rattle.std.specs.Prelude.{[], ◌∷◌, Some};
ghost use Rattle.hex.specs.Hex.{encode_lower};
ghost use Rattle.script_lang.specs.Pairs.{pairs_of};
ghost use Rattle.script_lang.specs.Words.{fill_text};

use board_model::Bytes;
use simdisk::Fill;
use std::fmt;

/// A byte, in two hexadecimal digits.
#[derive(Drop)]
pub struct ByteText(pub u8);

impl fmt::Display for ByteText {
    ghost output = { λ b. Some (encode_lower (b.0 ∷ [])) };

    fn fmt<W: fmt::Write>(&self, f: &mut fmt::Formatter<W>) -> fmt::Result {
        let byte = self.0;
        write!(f, "{byte:02x}")
    }
}

/// Bytes, in two digits each.
#[derive(Drop)]
pub struct HexText<'a>(pub &'a Bytes);

impl<'a> fmt::Display for HexText<'a> {
    ghost output = { λ h. Some (pairs_of h.0.now) };

    fn fmt<W: fmt::Write>(&self, f: &mut fmt::Formatter<W>) -> fmt::Result {
        for byte in self.0.as_slice() {
            let text = ByteText(*byte);
            write!(f, "{text}")?;
        }
        Ok(())
    }
}

/// What a cut leaves.
#[derive(Drop)]
pub struct FillText(pub Fill);

impl fmt::Display for FillText {
    ghost output = { λ t. Some (fill_text t.0) };

    fn fmt<W: fmt::Write>(&self, f: &mut fmt::Formatter<W>) -> fmt::Result {
        match self.0 {
            Fill::Old => f.write_str("old"),
            Fill::New => f.write_str("new"),
            Fill::Alternating => f.write_str("alt"),
            Fill::Byte(byte) => {
                let text = ByteText(byte);
                write!(f, "{text}")
            }
        }
    }
}
