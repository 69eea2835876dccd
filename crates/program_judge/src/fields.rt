//! The report of a pointer field.

ghost use Rattle.std.specs.Prelude.{◌≡◌, IfOk};
ghost use Rattle.bdd_nodes.specs.Shelf.{limit_of};
ghost use Rattle.gta_keep.specs.Holding.{HasNoTables};
ghost use Rattle.program_judge.specs.Reports.{ReportsField};

use crate::FieldWay;
use crate::lines::{push_ambiguous, push_field_limit};
use bdd_nodes::Shelf;
use field_judge::{FieldJudged, judge_field, one_each};
use std::alloc::{AllocError, Global};
use store_core::{FieldId, TypeTable};
use store_text::store_text;
use ws2s_pass::PassList;

/// What is written of a pointer field, and how it was judged: nothing of a functional one.
///
/// # Errors
///
/// Want of memory, as for [`judge_field`].
pub fn field_report(
    alloc: Global,
    types: &TypeTable,
    f: FieldId,
    passes: &PassList,
    shelf: &mut Shelf,
) -> Result<(Vec<u8>, FieldWay), AllocError>
    requires { HasNoTables shelf.old }
    ensures report { IfOk result (λ report. ReportsField (limit_of shelf.old) types.now f report.0.items report.1) }
    ensures tables { HasNoTables shelf.new }
    ensures same_limit { limit_of shelf.new ≡ limit_of shelf.old }
{
    let mut text = Vec::new(alloc);
    match judge_field(alloc, types, f, passes, shelf)? {
        FieldJudged::Functional => Ok((text, FieldWay::Functional)),
        FieldJudged::Ambiguous(store, cell) => {
            let vars = one_each(alloc, types)?;
            let told = store_text(alloc, types, &vars, &store)?;
            push_ambiguous(alloc, types, &mut text, f, cell)?;
            text.extend_from_slice(told.as_slice())?;
            Ok((text, FieldWay::Ambiguous))
        }
        FieldJudged::Limit => {
            push_field_limit(types, &mut text, f)?;
            Ok((text, FieldWay::Limit))
        }
    }
}
