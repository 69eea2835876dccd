//! What is told of the sites of a text's triples.

ghost use Rattle.std.specs.Prelude.{◌<◌, length};
ghost use Rattle.store_logic.specs.Fits.{KnowsVars};
ghost use Rattle.pale_typed.specs.Fitting.{ProgramFits};

use crate::spelled::{push_formula, push_number};
use pale_text::TextStop;
use pale_typed::Typed;
use plain_writer::Writer;
use pred_transform::triple_formula;
use site_list::{SiteList, sites};
use std::alloc::{AllocError, Global};
use store_core::{TypeTable, VarTable};
use store_exec::{Cause, Triple};
use tree_encode::{Layout, VariantList};
use whole_program::{WholeProgram, read_program};
use ws2s_core::Formula;

/// What is told of each site.
#[derive(Clone, Copy)]
enum Told {
    /// The cause, and the line where it isn't that of the site before.
    Place,
    /// How many nodes its formula has.
    Size,
    /// Its formula.
    Formula,
}

fn word(cause: Cause) -> &'static str {
    match cause {
        Cause::Null => "null",
        Cause::Dangling => "dangling",
        Cause::DoubleFree => "double-free",
        Cause::DanglingRef => "dangling-ref",
        Cause::Shared => "shared",
        Cause::Leak => "leak",
        Cause::Field => "field",
        Cause::Escape => "escape",
        Cause::Post => "post",
        Cause::Assert => "assert",
        Cause::Variant => "variant",
    }
}

fn push_places(out: &mut Writer, sites: &SiteList) {
    let mut line = 0;
    for site in sites.as_slice() {
        if site.line != line {
            line = site.line;
            push_number(out, b" ", line);
            out.push(b':');
        }
        out.push(b' ');
        out.push_all(word(site.cause).as_bytes());
    }
}

fn push_told(out: &mut Writer, told: Told, formula: &Formula) {
    match told {
        Told::Size => {
            let size = u32::try_from(formula.size()).unwrap_or(u32::MAX);
            push_number(out, b" ", size);
        }
        Told::Place | Told::Formula => {
            out.push(b' ');
            push_formula(out, formula);
        }
    }
}

/// What is told of the site with this number; false where no site has it.
fn push_site(
    alloc: Global,
    out: &mut Writer,
    told: Told,
    l: &Layout<'_>,
    t: &Triple,
    site: u32,
) -> Result<bool, AllocError> {
    match triple_formula(alloc, l, t, site)? {
        Some(formula) => {
            push_told(out, told, &formula);
            Ok(true)
        }
        None => Ok(false),
    }
}

/// What is told of each site, up to the first number that no site has.
fn push_sites(
    alloc: Global,
    out: &mut Writer,
    told: Told,
    l: &Layout<'_>,
    t: &Triple,
) -> Result<(), AllocError> {
    for site in 0..u32::MAX {
        if !push_site(alloc, out, told, l, t, site)? {
            return Ok(());
        }
    }
    Ok(())
}

/// What is told of a triple over the layout of its variables.
fn push_over(
    alloc: Global,
    out: &mut Writer,
    told: Told,
    l: &Layout<'_>,
    t: &Triple,
) -> Result<(), AllocError> {
    match told {
        Told::Place => {
            push_places(out, &sites(alloc, l, t)?);
            Ok(())
        }
        Told::Size | Told::Formula => push_sites(alloc, out, told, l, t),
    }
}

/// The layout of a triple's variables. No slots are spared for cells that the code makes: no formula depends on that.
fn layout_of<'a>(
    alloc: Global,
    types: &'a TypeTable,
    vars: &'a VarTable,
) -> Result<Layout<'a>, AllocError>
    requires { KnowsVars types.now vars.now }
{
    Layout::new(alloc, types, vars, &VariantList::new(alloc))
}

/// What is told of a triple, and a mark behind it.
fn push_triple(
    alloc: Global,
    out: &mut Writer,
    told: Told,
    typed: &Typed,
    t: &Triple,
) -> Result<(), AllocError>
    requires { ProgramFits typed.now }
{
    let Some(vars) = typed.vars(t.proc) else {
        return Ok(());
    };
    let l = layout_of(alloc, typed.types(), vars)?;
    let pushed = push_over(alloc, out, told, &l, t);
    out.push(b';');
    pushed
}

/// What is told of each triple of a program.
fn push_triples(
    alloc: Global,
    out: &mut Writer,
    told: Told,
    whole: &WholeProgram,
) -> Result<(), TextStop>
    requires { ProgramFits whole.now.typed }
{
    for t in whole.triples.as_slice() {
        push_triple(alloc, out, told, &whole.typed, t)?;
    }
    Ok(())
}

/// Writes what is told of the sites of each triple of a text.
fn push_text(alloc: Global, out: &mut Writer, text: &[u8], told: Told) -> Result<(), TextStop>
    requires { length text.now < u32.MAX }
{
    let whole = read_program(alloc, text)?;
    push_triples(alloc, out, told, &whole)
}

/// What is told of the sites of each triple of a text.
fn told_of(alloc: Global, text: &[u8], told: Told) -> Result<Vec<u8>, TextStop>
    requires { length text.now < u32.MAX }
{
    let mut out = Writer::new(alloc);
    push_text(alloc, &mut out, text, told)?;
    Ok(out.finish()?)
}

fn is_told(alloc: Global, text: &[u8], told: Told, want: &[u8]) -> Result<bool, TextStop> {
    if text.len() >= u32::MAX as usize {
        return Ok(false);
    }
    let out = told_of(alloc, text, told)?;
    Ok(out.as_slice() == want)
}

/// Whether the text's triples have these sites.
pub(crate) fn are_sites_told(alloc: Global, text: &[u8], want: &str) -> Result<bool, TextStop> {
    is_told(alloc, text, Told::Place, want.as_bytes())
}

/// Whether the formulas of the sites have these sizes.
pub(crate) fn are_sizes_told(alloc: Global, text: &[u8], want: &str) -> Result<bool, TextStop> {
    is_told(alloc, text, Told::Size, want.as_bytes())
}

/// Whether the formulas of the sites of a text's only triple are each `start` and then one of `rests`.
pub(crate) fn are_formulas_told(
    alloc: Global,
    text: &[u8],
    start: &str,
    rests: &[&str],
) -> Result<bool, TextStop> {
    let mut want = Writer::new(alloc);
    for rest in rests {
        want.push_all(b" & ");
        want.push_all(start.as_bytes());
        want.push(b' ');
        want.push_all(rest.as_bytes());
    }
    want.push(b';');
    let want = want.finish()?;
    is_told(alloc, text, Told::Formula, &want)
}
