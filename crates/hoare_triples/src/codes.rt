//! The code from a place of the text up to the next cuts, read from the left.

ghost use Rattle.std.specs.Prelude.{◌≡◌, ◌∷◌, [], true, None, IfOk, OnOk};
ghost use Rattle.hoare_split.specs.Cuts.{at_assertion, at_call};
ghost use Rattle.hoare_split.specs.Cuts as cuts;
ghost use Rattle.hoare_split.specs.Flows.{ends, branches, after_items, arrivals_of, code_in, is_among};
ghost use Rattle.hoare_split.specs.Picking.{is_awaited};
ghost use Rattle.hoare_split.specs.Settings.{settings};
ghost use Rattle.hoare_split.specs.Triples.{exit_of};
ghost use Rattle.store_exec.specs.declared.code.Code.{roll-Code};
ghost use Rattle.store_exec.specs.declared.code.Tail.TheVariants as tail;
ghost use Rattle.hoare_split.specs.Callers.{procs_of, vars_of, statement_in};
ghost use Rattle.hoare_triples.specs.Following.{flow_of, GoesOn, Reaches};

use crate::reached::Reached;
use crate::rest::Rest;
use hoare_split::{Caller, Pick, Point, call_cut, is_cut, plain_cut, push_item, set_picked};
use pale_text::Pos;
use pale_typed::{CallParts, Stmt};
use plain_data::Boxed;
use std::alloc::{AllocError, Global};
use store_exec::{Code, ItemList, Tail};
use store_logic::{Assertion, Cond};

/// Where the items of a code end: at the exit, at a `while` that is met again, or at a statement that is a cut point or has one
/// inside, with what follows it.
pub enum Ending<'a> {
    Exit,
    Again(Pos, &'a Assertion),
    At(&'a Stmt, Rest<'a>),
}

/// Puts the items up to the first cut or branch at the end of the list, and says where they end.
fn push_items<'a>(
    alloc: Global,
    rest: Rest<'a>,
    items: &mut ItemList,
) -> Result<Ending<'a>, AllocError>
    ensures { IfOk result (GoesOn items.old items.new rest.entry) }
{
    let mut left = rest;
    loop {
        match left {
            Rest::Exit => return Ok(Ending::Exit),
            Rest::Again(place, invariant) => return Ok(Ending::Again(place, invariant)),
            Rest::Then(block, after) => match block.split_first() {
                None => left = *after,
                Some((stmt, more)) => {
                    left = Rest::Then(more, after);
                    if is_cut(stmt) {
                        return Ok(Ending::At(stmt, left));
                    }
                    push_item(alloc, stmt, items)?;
                }
            },
        }
    }
}

/// The code of these items, which end at a cut point that was reached. Want of memory where its place has no number.
fn code_ending(reached: &Reached, items: ItemList, point: Point) -> Result<Code, AllocError>
    requires { is_among point reached.now.points ≡ true }
    ensures { IfOk result (λ code. (cut : _) →
        code ≡ code_in reached.now.points (after_items items (ends (record { point = point; cut = cut })))) }
{
    let place = reached.find(point).unwrap();
    match u32::try_from(place) {
        Ok(place) => Ok(Code {
            items,
            tail: Tail::Cut(place),
        }),
        Err(_) => Err(AllocError),
    }
}

/// The code of these items, which end at a `while`, a `split` or the exit.
fn code_to(
    alloc: Global,
    reached: &mut Reached,
    items: ItemList,
    point: Point,
    line: u32,
    assertion: &Assertion,
) -> Result<Code, AllocError>
    ensures code { IfOk result (λ code. code ≡ code_in reached.new.points
        (after_items items (ends (record { point = point; cut = cuts.plain_cut line assertion.now })))) }
    ensures reached { OnOk result (Reaches reached.old reached.new (record { point = point; cut = cuts.plain_cut line assertion.now } ∷ [])) }
{
    if reached.find(point).is_none() {
        let cut = plain_cut(alloc, line, assertion)?;
        reached.add(point, cut)?;
    }
    code_ending(reached, items, point)
}

/// The same of a `while` or a `split` at this place.
fn code_to_assertion(
    alloc: Global,
    reached: &mut Reached,
    items: ItemList,
    place: Pos,
    assertion: &Assertion,
) -> Result<Code, AllocError>
    ensures code { IfOk result (λ code. code ≡ code_in reached.new.points (after_items items (ends (at_assertion place assertion.now)))) }
    ensures reached { OnOk result (Reaches reached.old reached.new (at_assertion place assertion.now ∷ [])) }
{
    code_to(
        alloc,
        reached,
        items,
        Point::At(place),
        place.line,
        assertion,
    )
}

/// The same of a call.
fn code_to_call(
    alloc: Global,
    caller: &Caller<'_>,
    reached: &mut Reached,
    items: ItemList,
    place: Pos,
    call: &CallParts,
) -> Result<Code, AllocError>
    ensures code { IfOk result (λ code. code ≡ code_in reached.new.points
        (after_items items (ends (at_call (procs_of caller.now) (vars_of caller.now) place call.now)))) }
    ensures reached { OnOk result (Reaches reached.old reached.new (at_call (procs_of caller.now) (vars_of caller.now) place call.now ∷ [])) }
{
    let point = Point::At(place);
    if reached.find(point).is_none() {
        let cut = call_cut(alloc, caller, place.line, call)?;
        reached.add(point, cut)?;
    }
    code_ending(reached, items, point)
}

/// These items and then a branch into these codes.
fn branch_code(
    alloc: Global,
    items: ItemList,
    line: u32,
    condition: &Cond,
    taken: Code,
    other: Code,
) -> Result<Code, AllocError>
    ensures { IfOk result (λ code. code ≡ roll-Code (record { items = items; tail = tail.Branch line condition.now taken other })) }
{
    let condition = condition.copy(alloc)?;
    let taken = Boxed::new(alloc, taken)?;
    let other = Boxed::new(alloc, other)?;
    Ok(Code {
        items,
        tail: Tail::Branch(line, condition, taken, other),
    })
}

/// The code of these items, then of the settings before a call, which end at the call.
fn code_before_call(
    alloc: Global,
    caller: &Caller<'_>,
    reached: &mut Reached,
    mut items: ItemList,
    place: Pos,
    call: &CallParts,
) -> Result<Code, AllocError>
    ensures code { IfOk result (λ code. code ≡ code_in reached.new.points (after_items items
        (after_items (settings (vars_of caller.now) (is_awaited call.now) place.line)
        (ends (at_call (procs_of caller.now) (vars_of caller.now) place call.now))))) }
    ensures reached { OnOk result (Reaches reached.old reached.new (arrivals_of
        (after_items (settings (vars_of caller.now) (is_awaited call.now) place.line)
        (ends (at_call (procs_of caller.now) (vars_of caller.now) place call.now))))) }
{
    set_picked(
        alloc,
        caller.vars,
        Pick::Awaited(call),
        place.line,
        &mut items,
    )?;
    code_to_call(alloc, caller, reached, items, place, call)
}

/// The code of these items and then a branch into the code of the one block and that of the other, with what follows both in each.
#[cycle(codes)]
pub(crate) fn branch(
    alloc: Global,
    caller: &Caller<'_>,
    reached: &mut Reached,
    items: ItemList,
    line: u32,
    condition: &Cond,
    taken: Rest<'_>,
    other: Rest<'_>,
) -> Result<Code, AllocError>
    ensures code { IfOk result (λ code. code ≡ code_in reached.new.points
        (after_items items (branches line condition.now (flow_of caller.now taken.entry) (flow_of caller.now other.entry)))) }
    ensures reached { OnOk result (Reaches reached.old reached.new
        (arrivals_of (branches line condition.now (flow_of caller.now taken.entry) (flow_of caller.now other.entry)))) }
{
    let taken = code_of(alloc, caller, reached, taken)?;
    let other = code_of(alloc, caller, reached, other)?;
    branch_code(alloc, items, line, condition, taken, other)
}

/// The code of these items and then a statement that is a cut point or has one inside, with what follows it.
#[cycle(codes)]
fn code_at<'a>(
    alloc: Global,
    caller: &Caller<'_>,
    reached: &mut Reached,
    items: ItemList,
    stmt: &'a Stmt,
    rest: Rest<'a>,
) -> Result<Code, AllocError>
    requires { (statement_in caller.now stmt.now).items ≡ None }
    ensures code { IfOk result (λ code. code ≡ code_in reached.new.points
        (after_items items ((statement_in caller.now stmt.now).flow (flow_of caller.now rest.entry)))) }
    ensures reached { OnOk result (Reaches reached.old reached.new
        (arrivals_of ((statement_in caller.now stmt.now).flow (flow_of caller.now rest.entry)))) }
{
    match stmt {
        Stmt::If(line, condition, yes, no) => {
            let taken = Rest::Then(yes.as_slice(), &rest);
            let other = Rest::Then(no.as_slice(), &rest);
            branch(
                alloc, caller, reached, items, *line, condition, taken, other,
            )
        }
        Stmt::While(place, _, invariant, _) => {
            code_to_assertion(alloc, reached, items, *place, invariant)
        }
        Stmt::Split(place, assertion) => {
            code_to_assertion(alloc, reached, items, *place, assertion)
        }
        Stmt::Call(place, call) => code_before_call(alloc, caller, reached, items, *place, call),
        Stmt::Skip | Stmt::Do(_, _) => unreachable!(),
    }
}

/// The code of these items, which end at the exit.
fn code_to_exit(
    alloc: Global,
    caller: &Caller<'_>,
    reached: &mut Reached,
    mut items: ItemList,
) -> Result<Code, AllocError>
    ensures code { IfOk result (λ code. code ≡ code_in reached.new.points (after_items items (exit_of (vars_of caller.now) caller.now.proc.now))) }
    ensures reached { OnOk result (Reaches reached.old reached.new (arrivals_of (exit_of (vars_of caller.now) caller.now.proc.now))) }
{
    let proc = caller.proc;
    let line = proc.last;
    set_picked(alloc, caller.vars, Pick::Left(proc), line, &mut items)?;
    code_to(alloc, reached, items, Point::Exit, line, &proc.post)
}

/// The code of what follows, up to the next cuts, which are put at the end of those that were reached.
#[cycle(codes)]
pub(crate) fn code_of(
    alloc: Global,
    caller: &Caller<'_>,
    reached: &mut Reached,
    rest: Rest<'_>,
) -> Result<Code, AllocError>
    ensures code { IfOk result (λ code. code ≡ code_in reached.new.points (flow_of caller.now rest.entry)) }
    ensures reached { OnOk result (Reaches reached.old reached.new (arrivals_of (flow_of caller.now rest.entry))) }
{
    let mut items = ItemList::new(alloc);
    match push_items(alloc, rest, &mut items)? {
        Ending::Exit => code_to_exit(alloc, caller, reached, items),
        Ending::Again(place, invariant) => code_to_assertion(
            alloc, reached, items, place, invariant,
        ),
        Ending::At(stmt, rest) => code_at(alloc, caller, reached, items, stmt, rest),
    }
}
