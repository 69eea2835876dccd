//! What a grammar has to say of itself.

ghost use Rattle.std.specs.Prelude.{◌≡◌, IsTrue, List, ℕ};
ghost use Rattle.ll1_reader.specs.Grammars.{Rows, Rules};
ghost use Rattle.ll1_reader.specs.Predicting.{Table, IsLl1, AreNamed};

use crate::symbol::Symbol;

/// An LL(1) grammar: the next token tells the next row. `grammar` is the grammar itself; the rest gives its rows names, and
/// is its table, worked out from it, and the laws say that it is right.
pub trait Grammar {
    /// What stands for texts.
    type Nonterminal: Copy + 'static;
    /// One of the things that a nonterminal may stand for.
    type Production: Copy + 'static;
    /// Semantic actions: what is to be made of what was read.
    type Act: Copy + 'static;
    /// The kinds of tokens that the grammar tells apart.
    type Kind: Copy + 'static;

    /// The grammar.
    ghost grammar: { Rows Self.Nonterminal Self.Act Self.Kind };

    /// Its rows, by the names of productions.
    ghost rules: { Rules Self.Nonterminal Self.Production Self.Act Self.Kind };

    /// The table of the rows.
    ghost table: { Table Self.Nonterminal Self.Production Self.Kind };

    /// The productions of a nonterminal.
    fn productions(nonterminal: Self::Nonterminal) -> &'static [Self::Production]
        ensures { result.now ≡ rules.productions nonterminal };

    /// The row of a production.
    fn row(
        production: Self::Production,
    ) -> &'static [Symbol<Self::Nonterminal, Self::Act, Self::Kind>]
        ensures { result.now ≡ rules.row production };

    /// What a whole text is.
    fn text() -> &'static [Symbol<Self::Nonterminal, Self::Act, Self::Kind>]
        ensures { result.now ≡ rules.text };

    /// The FIRST set of a production: the kinds of the tokens with which it may begin.
    fn first(production: Self::Production) -> &'static [Self::Kind]
        ensures { result.now ≡ table.first production };

    /// The number of a kind.
    fn number(kind: Self::Kind) -> u32
        ensures { result ≡ table.number kind };

    /// The named rows are the grammar's.
    ghost named: { AreNamed grammar rules };

    /// The grammar is LL(1).
    ghost sound: { IsLl1 rules table };
}
