//! Conditions of code. One that binds less than its place asks is in parentheses.

ghost use Rattle.std.specs.Prelude.{◌≡◌};
ghost use Rattle.pale_print.specs.ConditionTokens.{condition_tokens};
ghost use Rattle.pale_print.specs.Tightness.{condition_tightness};
ghost use Rattle.pale_print.specs.Writing.{Writes, condition_operands};

use crate::names::{push_compared, push_term, push_variant_test};
use crate::tightness::ConditionTightness;
use crate::tokens::{close_group, open_group, push_mark, push_word};
use pale_syntax::Condition;
use pale_text::Mark;
use plain_writer::Writer;

/// Operands of a chain, each behind its operator.
#[cycle(conditions)]
fn push_operands(text: &mut Writer, mark: Mark, asked: ConditionTightness, operands: &[Condition])
    ensures { Writes (condition_operands mark (condition_tightness asked) operands.now) text.old text.new }
{
    for operand in operands {
        push_mark(text, mark);
        push_condition(text, operand, asked);
    }
}

/// A condition where its place asks so much.
#[cycle(conditions)]
#[tactic(auto, using(crate::proofs::ConditionLemmas::condition_forms))]
pub fn push_condition(text: &mut Writer, condition: &Condition, asked: ConditionTightness)
    ensures { Writes (condition_tokens condition.now (condition_tightness asked)) text.old text.new }
{
    match condition {
        Condition::True(_) => push_word(text, b"true"),
        Condition::False(_) => push_word(text, b"false"),
        Condition::Truth(term) => push_term(text, term),
        Condition::Same(left, _, right) => push_compared(text, left, Mark::SameAs, right),
        Condition::Differ(left, _, right) => push_compared(text, left, Mark::NotSame, right),
        Condition::Is(term, _, variant) => push_variant_test(text, term, variant),
        Condition::Not(_, inner) => {
            push_mark(text, Mark::Bang);
            push_condition(text, inner.get(), ConditionTightness::Single)
        }
        Condition::And(first, others) => {
            let needed = ConditionTightness::Conjunction.is_grouped_at(asked);
            let operand = ConditionTightness::Single;
            open_group(text, needed);
            push_condition(text, first.get(), operand);
            push_operands(text, Mark::AndAlso, operand, others.as_slice());
            close_group(text, needed)
        }
        Condition::Or(first, others) => {
            let needed = ConditionTightness::Disjunction.is_grouped_at(asked);
            let operand = ConditionTightness::Conjunction;
            open_group(text, needed);
            push_condition(text, first.get(), operand);
            push_operands(text, Mark::OrElse, operand, others.as_slice());
            close_group(text, needed)
        }
    }
}
