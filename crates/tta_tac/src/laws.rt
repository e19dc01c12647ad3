//! Laws of program texts. A law is a function that does nothing, and whose contract is the law.

ghost use Rattle.std.specs.Prelude.{ℕ, List};
ghost use Rattle.tta_parse.specs.Lines.{lines_of};
ghost use Rattle.tta_ops.specs.Units.{Units};
ghost use Rattle.tta_program.specs.Program.{Program};
ghost use Rattle.tta_program.specs.Rules.{IsProgram};
ghost use Rattle.tta_program.specs.Over.{StandsOver};
ghost use Rattle.tta_tac.specs.Grammar.{IsProgramText};
ghost use Rattle.tta_tac.specs.Text.{ProgramText};

/// What a text is as a program keeps every rule of programs, and stands over the set of units that
/// the text is read with. A text is a program exactly where all its lines together describe it.
pub fn texts_are_programs()
    ensures program { (u : Units) (text : List ℕ) (p : Program)
        → ProgramText u text p → IsProgram p }
    ensures grammar { (u : Units) (text : List ℕ) (p : Program)
        → ProgramText u text p → IsProgramText u (lines_of text) p }
    ensures exact { (u : Units) (text : List ℕ) (p : Program)
        → IsProgramText u (lines_of text) p → ProgramText u text p }
    ensures over { (u : Units) (text : List ℕ) (p : Program)
        → ProgramText u text p → StandsOver u p }
{}
