//! What callers may rest on.

ghost use Rattle.std.specs.Prelude.{◌≡◌, List};
ghost use Rattle.ll1_reader.specs.Grammars.{rules_of};
ghost use Rattle.ll1_reader.specs.Readings.{Step, IsAnyReading, IsReading};

use crate::grammar::Grammar;

/// The reading that counts leaves no sentence out: what has any reading by the grammar as written has one that counts, and
/// one that counts is a reading.
pub fn each_sentence_has_a_reading_that_counts<G: Grammar>()
    ensures counts { (tokens : List G.Kind) (steps : List (Step G.Act)) → IsAnyReading (rules_of G.grammar) tokens steps →
        (counted : List (Step G.Act)) × IsReading (rules_of G.grammar) tokens counted }
    ensures is_any { (tokens : List G.Kind) (steps : List (Step G.Act)) → IsReading (rules_of G.grammar) tokens steps →
        IsAnyReading (rules_of G.grammar) tokens steps }
{}

/// No tokens have two readings that count.
pub fn one_reading_counts<G: Grammar>()
    ensures { (tokens : List G.Kind) (one other : List (Step G.Act)) → IsReading (rules_of G.grammar) tokens one →
        IsReading (rules_of G.grammar) tokens other → one ≡ other }
{}
