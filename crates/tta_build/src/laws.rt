//! Laws of building code, of a program as it stands or converted. A law is a function that does
//! nothing, and whose contract is the law.

ghost use Rattle.tta_build.specs.Compiled.{CompiledIsShort};
ghost use Rattle.tta_build.specs.Completes.{BuildCompletes, BuildCompletesPlainly};
ghost use Rattle.tta_build.specs.Converted.{ConvertedAgrees};
ghost use Rattle.tta_build.specs.Excludes.{CausesExclude, CodeExcludes, FullExcludes};

/// A pair that is accepted and has room has code, unless memory runs out.
pub fn build_completes()
    ensures { BuildCompletes }
{}

/// A pair that is accepted and whose plain code fits has code, unless memory runs out.
pub fn build_completes_plainly()
    ensures { BuildCompletesPlainly }
{}

/// What is compiled of a pair, and so its code, is no longer than plain code of it.
pub fn compiled_is_short()
    ensures { CompiledIsShort }
{}

/// Two errors that have their cause for one machine and program say the same, but for how many words
/// the code has, or one of them is about memory.
pub fn causes_exclude()
    ensures { CausesExclude }
{}

/// Where there is code, no error has its cause but that of room for code and that of memory.
pub fn code_excludes()
    ensures { CodeExcludes }
{}

/// Of the same compiled lists there is never both code and the error that code has no room.
pub fn full_excludes()
    ensures { FullExcludes }
{}

/// Code that agrees with the converted program agrees with the program, which makes at most twice as
/// many steps.
pub fn converted_agrees()
    ensures { ConvertedAgrees }
{}
