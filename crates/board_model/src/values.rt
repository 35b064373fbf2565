//! A value as reports write it.

ghost use Rattle.std.specs.Prelude.{◌≡◌, Some};
ghost use Rattle.board_model.specs.Texts.{hex_text};

use std::fmt;

/// A value of 64 bits in 16 hexadecimal digits, in lower case and without a prefix.
#[derive(Drop)]
pub struct Value(pub u64);

impl fmt::Display for Value {
    ghost output = { λ v. Some (hex_text 16 v.0) };

    fn fmt<W: fmt::Write>(&self, f: &mut fmt::Formatter<W>) -> fmt::Result {
        let value = self.0;
        write!(f, "{value:016x}")
    }
}
