//! The answer to a text.

ghost use Rattle.std.specs.Prelude.{◌≡◌, ◌≤◌, IfOk, IfErr};
ghost use Rattle.bdd_nodes.specs.Shelf.{limit_of};
ghost use Rattle.ws2s_decide.specs.Deciding.{guide_of, HasKept};
ghost use Rattle.ws2s_reduce.specs.Answer.{IsReduced, MeansText, MeansBroken};
ghost use Rattle.ws2s_reduce.specs.Reducing.{holds_of, breaks_of};
ghost use Rattle.ws2s_reduce.specs.Sizes.{IsSmall};
ghost use Rattle.ws2s_answer.specs.Answering.{IsAnswer, IsValid, plain};

use bdd_nodes::Shelf;
use std::alloc::{AllocError, Global};
use ws2s_core::{Formula, Guide, LabelTree, TrackList};
use ws2s_decide::{Decider, Verdict};
use ws2s_reduce::{ReduceFault, Reduced, reduce};
use ws2s_syntax::Ws2sText;

/// What is said of a text.
#[derive(Debug, Drop)]
pub enum Answer {
    /// Nothing satisfies it.
    Unsatisfiable,
    /// Everything that gives each `var1` one position satisfies it.
    Valid,
    /// Neither: this tree satisfies it, and none of smaller total size does. A free variable's track is its number.
    Example(LabelTree),
    /// Neither, but each tree of smallest total size that satisfies it has 2^64 - 1 positions or more, all in all, or 2^32 - 1 nodes
    /// or more.
    TooLarge,
    /// The greater of the Peaks of its two formulas under the plain guide exceeds the limit.
    Limit,
}

/// The answer to a text that is valid, if nothing breaks it, and what is handed in otherwise.
fn unless_valid(
    alloc: Global,
    text: &Ws2sText,
    otherwise: Answer,
    breaks: &Formula,
    decider: &mut Decider,
    shelf: &mut Shelf,
) -> Result<Answer, AllocError>
    requires otherwise { (IsValid text.now → ⊥) → IsAnswer (limit_of shelf.old) text.now otherwise }
    requires means { MeansBroken text.now breaks.now }
    requires breaks { breaks.now ≡ breaks_of text.now }
    requires kept { HasKept shelf.old decider.old }
    requires guide { guide_of decider.old ≡ plain }
    ensures value { IfOk result (IsAnswer (limit_of shelf.old) text.now) }
    ensures kept { HasKept shelf.new decider.new }
{
    let none = TrackList::new(alloc);
    match decider.decide(alloc, breaks, &none, shelf)? {
        Verdict::None => Ok(Answer::Valid),
        Verdict::Witness(_, _) => Ok(otherwise),
        Verdict::TooLarge => Ok(otherwise),
        Verdict::Limit => Ok(Answer::Limit),
    }
}

/// The answer by the two formulas of a text.
fn answer_by(
    alloc: Global,
    text: &Ws2sText,
    reduced: &Reduced,
    decider: &mut Decider,
    shelf: &mut Shelf,
) -> Result<Answer, AllocError>
    requires reduced { IsReduced text.now reduced.now }
    requires holds { MeansText text.now reduced.now.holds }
    requires breaks { MeansBroken text.now reduced.now.breaks }
    requires kept { HasKept shelf.old decider.old }
    requires guide { guide_of decider.old ≡ plain }
    ensures value { IfOk result (IsAnswer (limit_of shelf.old) text.now) }
    ensures kept { HasKept shelf.new decider.new }
{
    match decider.decide(alloc, &reduced.holds, &reduced.free, shelf)? {
        Verdict::None => Ok(Answer::Unsatisfiable),
        Verdict::Witness(tree, _) => {
            let example = Answer::Example(tree);
            unless_valid(alloc, text, example, &reduced.breaks, decider, shelf)
        }
        Verdict::TooLarge => {
            unless_valid(
                alloc,
                text,
                Answer::TooLarge,
                &reduced.breaks,
                decider,
                shelf,
            )
        }
        Verdict::Limit => Ok(Answer::Limit),
    }
}

/// The answer to a text, by decision nodes of which there are at most `limit` at a time.
///
/// # Errors
///
/// `BigFormula` exactly where one of the text's two formulas has more than 65,536 nodes; want of memory.
pub fn answer_of(alloc: Global, text: &Ws2sText, limit: u32) -> Result<Answer, ReduceFault>
    requires some { 1 ≤ limit }
    requires few { limit ≤ 16000000 }
    ensures value { IfOk result (IsAnswer limit text.now) }
    ensures small { IfOk result (λ answer. IsSmall (holds_of text.now) × IsSmall (breaks_of text.now)) }
    ensures big { IfErr result (λ fault. fault ≡ ReduceFault.BigFormula →
        (IsSmall (holds_of text.now) × IsSmall (breaks_of text.now)) → ⊥) }
{
    let reduced = reduce(alloc, text)?;
    let mut shelf = Shelf::open(alloc, limit)?;
    let guide = Guide::plain(alloc)?;
    let mut decider = Decider::new(alloc, guide)?;
    let answer = answer_by(alloc, text, &reduced, &mut decider, &mut shelf);
    decider.close(&mut shelf);
    Ok(answer?)
}
