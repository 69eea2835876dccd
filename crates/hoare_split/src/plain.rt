//! Statements with no cut inside.

ghost use Rattle.std.specs.Prelude.{◌≡◌, ◌++◌, List, not, is_some, IfSome, IfOk, OnOk};
ghost use Rattle.store_core.specs.Tables.{VarEntry};
ghost use Rattle.pale_typed.specs.declared.typed.ProcEntry.{ProcEntry};
ghost use Rattle.hoare_split.specs.Statements.{passage_of, block_of};

use pale_typed::Stmt;
use std::alloc::{AllocError, Global};
use store_exec::{Item, ItemList};

/// Whether the statement is a cut point or has one inside.
#[cycle(cuts)]
pub fn is_cut(stmt: &Stmt) -> bool
    ensures { (procs : List ProcEntry) (vars : List VarEntry) → result ≡ not (is_some (passage_of procs vars stmt.now).items) }
{
    match stmt {
        Stmt::Skip | Stmt::Do(_, _) => false,
        Stmt::If(_, _, yes, no) => has_cut(yes.as_slice()) || has_cut(no.as_slice()),
        Stmt::While(_, _, _, _) | Stmt::Split(_, _) | Stmt::Call(_, _) => true,
    }
}

/// Whether a cut point stands among the statements. They are looked through once for each `if` around them, of which a text has
/// 200 at most.
#[cycle(cuts)]
pub(crate) fn has_cut(block: &[Stmt]) -> bool
    ensures { (procs : List ProcEntry) (vars : List VarEntry) → result ≡ not (is_some (block_of procs vars block.now).items) }
{
    for stmt in block {
        if is_cut(stmt) {
            return true;
        }
    }
    false
}

/// Puts what a statement with no cut inside does at the end of the items. A cut point does nothing.
#[cycle(items)]
pub fn push_item(alloc: Global, stmt: &Stmt, items: &mut ItemList) -> Result<(), AllocError>
    ensures { OnOk result ((procs : List ProcEntry) (vars : List VarEntry) →
        IfSome (passage_of procs vars stmt.now).items (λ own. items.new ≡ items.old ++ own)) }
{
    match stmt {
        Stmt::Do(line, act) => items.push(Item::Do(*line, act.copy(alloc)?)),
        Stmt::If(line, condition, yes, no) => {
            let condition = condition.copy(alloc)?;
            let yes = items_of(alloc, yes.as_slice())?;
            let no = items_of(alloc, no.as_slice())?;
            items.push(Item::If(*line, condition, yes, no))
        }
        Stmt::Skip | Stmt::While(_, _, _, _) | Stmt::Split(_, _) | Stmt::Call(_, _) => Ok(()),
    }
}

/// What statements with no cut inside do, in order.
#[cycle(items)]
fn items_of(alloc: Global, block: &[Stmt]) -> Result<ItemList, AllocError>
    ensures { IfOk result (λ items. (procs : List ProcEntry) (vars : List VarEntry) →
        IfSome (block_of procs vars block.now).items (λ own. items ≡ own)) }
{
    let mut items = ItemList::new(alloc);
    for stmt in block {
        push_item(alloc, stmt, &mut items)?;
    }
    Ok(items)
}
