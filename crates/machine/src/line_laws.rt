//! A law of the definitions, the contract of a function that does nothing.

ghost use Rattle.std.specs.Prelude.{◌≡◌, ℕ};
ghost use Rattle.machine.specs.Machine.{Machine};
ghost use Rattle.machine.specs.Shows.{CsrLine};
ghost use Rattle.machine.specs.declared.line.MachineLine.{MachineLine};

/// A line of a control and status register says one thing of a board.
pub fn hart_determines_line()
    ensures { (h n : ℕ) (m : Machine) (line also : MachineLine) → CsrLine h n m line → CsrLine h n m also → line ≡ also }
{}
