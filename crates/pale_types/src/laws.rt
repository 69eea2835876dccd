//! Laws of typed programs.

ghost use Rattle.std.specs.Prelude.{◌≡◌, None};
ghost use Rattle.pale_syntax.specs.declared.tree.declaration.Program.{Program};
ghost use Rattle.pale_types.specs.Programs.{typed_program, program_fault};
ghost use Rattle.pale_typed.specs.Fitting.{ProgramFits};

/// What a program without a fault is typed as fits.
pub fn programs_without_fault_fit()
    ensures { (program : Program) → program_fault program ≡ None → ProgramFits (typed_program program) }
{}
