//! Reading whole texts.

ghost use Rattle.std.specs.Prelude.{ℕ, List, IsOkUnless, MatchResult};
ghost use Rattle.ll1_reader.specs.Grammars.{rules_of};
ghost use Rattle.ll1_reader.specs.Readings.{Step, IsReading};
ghost use Rattle.ll1_reader.specs.Answers.{levels, AreLow, IsParsed, IsWrongAt, IsDeepAt};
ghost use Rattle.ll1_reader.specs.Stops.{IsStop, IsStopUnless};
ghost use Rattle.ll1_reader.specs.declared.stop.ReadStop.TheVariants.{Wrong, Deep, NoMemory};

use crate::grammar::Grammar;
use crate::step::{Fed, feed, finish};
use crate::stop::ReadStop;
use crate::symbol::Event;
use crate::work::begin;
use plain_data::Items;
use std::alloc::Global;

/// What happens in the one reading of the tokens that counts, where it opens at most so many levels at once. Otherwise
/// the first token with which no sentence goes on, or that opens a level above the limit. Takes no stack for a text's
/// length or depth.
pub fn read<G: Grammar>(
    alloc: Global,
    tokens: &[G::Kind],
    limit: u32,
) -> Result<Items<Event<G::Act>>, ReadStop>
    ensures exact { MatchResult result (IsParsed (rules_of G.grammar) limit tokens.now)
        (IsStop (rules_of G.grammar) limit tokens.now) }
    // What has such a reading is read, unless memory runs out.
    ensures complete { (steps : List (Step G.Act)) → IsReading (rules_of G.grammar) tokens.now steps →
        AreLow limit (levels steps) → IsOkUnless result NoMemory }
    // The first wrong token, or the first that opens a level too many, is named, unless memory runs out.
    ensures wrong { (place : ℕ) → IsWrongAt (rules_of G.grammar) limit tokens.now place → IsStopUnless result (Wrong place) }
    ensures deep { (place : ℕ) → IsDeepAt (rules_of G.grammar) limit tokens.now place → IsStopUnless result (Deep place) }
{
    read_by_name::<G>(alloc, tokens, limit)
}

/// The same by the named rows.
fn read_by_name<G: Grammar>(
    alloc: Global,
    tokens: &[G::Kind],
    limit: u32,
) -> Result<Items<Event<G::Act>>, ReadStop>
    ensures { MatchResult result (IsParsed G.rules limit tokens.now) (IsStop G.rules limit tokens.now) }
{
    let mut work = begin(alloc, G::text())?;
    for (place, kind) in tokens.iter().enumerate() {
        match feed::<G>(&mut work, *kind, limit)? {
            Fed::Read => {}
            Fed::Wrong => return Err(ReadStop::Wrong(place)),
            Fed::Deep => return Err(ReadStop::Deep(place)),
        }
    }
    if !finish::<G>(&mut work)? {
        return Err(ReadStop::Wrong(tokens.len()));
    }
    Ok(work.events)
}
