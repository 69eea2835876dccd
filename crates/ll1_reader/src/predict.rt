//! What the next token tells.

ghost use Rattle.std.specs.Prelude.{◌≡◌, MatchOption, false, true};
ghost use Rattle.ll1_reader.specs.Grammars.{IsOneOf};
ghost use Rattle.ll1_reader.specs.Predicting.{among, first_set};
ghost use Rattle.ll1_reader.specs.Moves.{is_next};

use crate::grammar::Grammar;

/// Whether the production may begin with a token of this kind.
fn begins<G: Grammar>(production: G::Production, kind: G::Kind) -> bool
    ensures { result ≡ among G.rules G.table kind (G.table.first production) }
{
    for start in G::first(production) {
        if G::number(kind) == G::number(*start) {
            return true;
        }
    }
    false
}

/// The production of the nonterminal that begins with the next token, where there is one.
pub(crate) fn choose<G: Grammar>(
    nonterminal: G::Nonterminal,
    next: Option<G::Kind>,
) -> Option<G::Production>
    ensures { MatchOption result (is_next G.rules G.table (first_set G.rules G.table nonterminal) next ≡ false)
        (λ production. IsOneOf production (G.rules.productions nonterminal) × (is_next G.rules G.table (G.table.first production) next ≡ true)) }
{
    let kind = next?;
    for production in G::productions(nonterminal) {
        if begins::<G>(*production, kind) {
            return Some(*production);
        }
    }
    None
}
