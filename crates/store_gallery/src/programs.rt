//! The program in front of a text: its types and the variables of its first procedure are those of the layout.

ghost use Rattle.std.specs.Prelude.{◌<◌, length, IfOk};
ghost use Rattle.std.specs.List.{AllByRecursion};
ghost use Rattle.store_core.specs.Tables.{KnowsVariant};
ghost use Rattle.store_logic.specs.Fits.{KnowsVars};
ghost use Rattle.pale_typed.specs.Fitting.{ProgramFits};

use crate::lines::Stop;
use pale_parse::parse;
use pale_syntax::Program;
use pale_text::{TextStop, lex};
use pale_typed::Typed;
use pale_types::check_types;
use plain_data::Items;
use plain_writer::Writer;
use std::alloc::{AllocError, Global};
use store_core::{Route, TypeId, TypeTable, VarTable, VariantId};
use store_logic::Assertion;
use tree_encode::{Layout, VariantList};

/// The most bytes that a program may have.
const MOST_BYTES: usize = 100_000;

/// The tree of a text.
fn tree_of(alloc: Global, text: &[u8]) -> Result<Program, TextStop>
    requires { length text.now < u32.MAX }
{
    let list = lex(alloc, text)?;
    parse(alloc, &list)
}

fn typed_of(alloc: Global, text: &[u8]) -> Result<Typed, TextStop>
    requires { length text.now < u32.MAX }
    ensures { IfOk result (λ typed. ProgramFits typed) }
{
    let program = tree_of(alloc, text)?;
    check_types(alloc, &program)
}

/// The program of a text.
pub(crate) fn program_of(alloc: Global, text: &[u8]) -> Result<Typed, Stop>
    ensures { IfOk result (λ typed. ProgramFits typed) }
{
    if text.len() > MOST_BYTES {
        return Err(Stop);
    }
    match typed_of(alloc, text) {
        Ok(typed) => Ok(typed),
        Err(_) => Err(Stop),
    }
}

/// One spare of the first type's first variant, where it is asked for and there.
fn spares_of(alloc: Global, types: &TypeTable, is_spare: bool) -> Result<VariantList, AllocError>
    ensures { IfOk result (λ spares. AllByRecursion (KnowsVariant types.now) spares) }
{
    let first = VariantId {
        ty: TypeId(0),
        index: 0,
    };
    if is_spare && types.variants(first.ty) > 0 {
        Items::from_slice(alloc, &[first])
    } else {
        Ok(Items::new(alloc))
    }
}

/// The layout of these types and variables.
fn layout_over<'a>(
    alloc: Global,
    types: &'a TypeTable,
    vars: &'a VarTable,
    is_spare: bool,
) -> Result<Layout<'a>, AllocError>
    requires { KnowsVars types.now vars.now }
{
    let spares = spares_of(alloc, types, is_spare)?;
    Layout::new(alloc, types, vars, &spares)
}

/// The layout of a program's types and of the variables of its first procedure.
pub(crate) fn layout_of<'a>(
    alloc: Global,
    typed: &'a Typed,
    is_spare: bool,
) -> Result<Layout<'a>, Stop>
    requires { ProgramFits typed.now }
{
    let Some(vars) = typed.vars(0) else {
        return Err(Stop);
    };
    Ok(layout_over(alloc, typed.types(), vars, is_spare)?)
}

/// The program with a procedure in front whose precondition walks the route from a cell of the first type.
fn walking(
    alloc: Global,
    types: &TypeTable,
    program: &str,
    route: &str,
) -> Result<Vec<u8>, AllocError> {
    let mut text = Writer::new(alloc);
    text.push_all(b"proc walking(data x: ");
    text.push_all(types.type_name(TypeId(0)).unwrap_or(b""));
    text.push_all(b") pre [x<");
    text.push_all(route.as_bytes());
    text.push_all(b">x] { }\n");
    text.push_all(program.as_bytes());
    text.finish()
}

/// The program of such a text.
pub(crate) fn walking_program(
    alloc: Global,
    types: &TypeTable,
    program: &str,
    route: &str,
) -> Result<Typed, Stop> {
    let text = walking(alloc, types, program, route)?;
    program_of(alloc, &text)
}

/// The route that the precondition of the first procedure walks.
pub(crate) fn route_in(typed: &Typed) -> Option<&Route> {
    match &typed.proc(0)?.pre {
        Assertion::Walk(_, route, _) => Some(route),
        _ => None,
    }
}
