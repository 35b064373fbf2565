//! Laws of the script language, each the contract of a function that does nothing.

ghost use Rattle.std.specs.Prelude.{◌≡◌, ℕ, ◌+◌, List, ◌++◌, length, Ok, Some};
ghost use Rattle.board_model.specs.Shapes.{Size, IsSize};
ghost use Rattle.script_lang.specs.declared.line.Line.{Line};
ghost use Rattle.script_lang.specs.Words.{words_of};
ghost use Rattle.script_lang.specs.Lines.{line_of, text_of, FitsLine, IsLineInRange};
ghost use Rattle.script_lang.specs.Scripts.{◌>>>◌, rest_of, Script, script_of};
ghost use Rattle.script_lang.specs.Spellings.{script_text, IsWritable};

/// Every line in its ranges is read from its spelling.
pub fn lines_read_as_spelled()
    ensures { (size : Size) (line : Line) → IsSize size → IsLineInRange size line → FitsLine line
        → line_of size (words_of (text_of line)) ≡ Some line }
{}

/// Lines after the board line are read in their order: what lines say is what the first of them say and then
/// what the others say, and a fault among the first of them answers whatever the others are.
pub fn lines_read_in_order()
    ensures { (size : Size) (n : ℕ) (front back : List (List ℕ)) → rest_of size n (front ++ back)
        ≡ (rest_of size n front >>> λ said. rest_of size (n + length front) back >>> λ others. Ok (said ++ others)) }
{}

/// Every script that the limits and the board allow is read from its text.
pub fn scripts_read_as_written()
    ensures { (script : Script) → IsWritable script → script_of (script_text script) ≡ Ok script }
{}
