//! The procedure that a line names, and the number of steps.

ghost use Rattle.std.specs.Prelude.{◌≡◌, ◌+◌, IfOk, IfErr};
ghost use Rattle.std.specs.Str.{bytes_eq};
ghost use Rattle.pale_typed.specs.declared.typed.ProcEntry.{ProcEntry};
ghost use Rattle.pale_run.specs.Running.{proc_named, NamesRun, NamesNoRun};

use pale_parts::run_in;
use pale_typed::Typed;
use std::alloc::AllocError;
use store_text::StoreKind;

/// A procedure of a program, by its number, and how many steps a run of it has at most.
#[derive(Clone, Copy, Debug, PartialEq, Eq)]
pub struct NamedRun {
    pub number: u32,
    pub steps: u32,
}

/// The number of the procedure after this one. Want of memory past the last number.
fn number_after(number: u32) -> Result<u32, AllocError>
    ensures { IfOk result (λ next. next ≡ number + 1) }
{
    number.checked_add(1).ok_or(AllocError)
}

/// Whether the procedure has this name.
fn is_named(found: &[u8], name: &[u8]) -> bool
    ensures { result ≡ bytes_eq found.now name.now }
{
    found == name
}

/// The number of the procedure of this name.
fn proc_named(program: &Typed, name: &[u8]) -> Result<Option<u32>, AllocError>
    ensures { IfOk result (λ found. found ≡ proc_named program.now.procs name.now) }
{
    let mut number = 0;
    while let Some(proc) = program.proc(number) {
        if is_named(proc.name.as_slice(), name) {
            return Ok(Some(number));
        }
        number = number_after(number)?;
    }
    Ok(None)
}

/// What a line `run PROC STEPS` names. `Err` in what is given back is `Syntax` for another form, and `UnknownName` where the program
/// has no procedure of that name.
///
/// # Errors
///
/// Want of memory, also where procedures are more than their numbers count.
pub fn named_run(program: &Typed, line: &[u8]) -> Result<Result<NamedRun, StoreKind>, AllocError>
    ensures named { IfOk result (λ named. IfOk named (λ run. (e : ProcEntry) × NamesRun program.now line.now run.number run.steps e)) }
    ensures unnamed { IfOk result (λ named. IfErr named (NamesNoRun program.now line.now)) }
{
    let Some((name, steps)) = run_in(line) else {
        return Ok(Err(StoreKind::Syntax));
    };
    match proc_named(program, name)? {
        Some(number) => Ok(Ok(NamedRun { number, steps })),
        None => Ok(Err(StoreKind::UnknownName)),
    }
}
