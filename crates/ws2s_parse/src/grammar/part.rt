//! The nonterminals of the grammar of WS2S text.

/// A part of WS2S text: a nonterminal of its grammar. No part is empty.
#[derive(Clone, Copy)]
pub enum SourcePart {
    /// An item.
    Item,
    /// Free variables.
    Variables,
    /// A further one of these.
    NextVariable,
    /// The parameters of a predicate.
    Parameters,
    /// A further one of these.
    NextParameter,
    /// A parameter.
    Parameter,
    /// A formula.
    Formula,
    /// A further one of these.
    NextImplication,
    /// An implication.
    Implication,
    /// What is implied.
    Implied,
    /// Formulas one of which holds.
    OrChain,
    /// A further one of these.
    NextAndChain,
    /// Formulas that hold together.
    AndChain,
    /// A further one of these.
    NextNegation,
    /// A formula under prefixes.
    Negation,
    /// What a quantifier binds, and its body.
    Bound,
    /// A further bound name.
    NextBound,
    /// A formula without prefixes and connectives.
    Primary,
    /// What follows the name that begins a formula.
    NameRest,
    /// The arguments of a use.
    Arguments,
    /// A further one of these.
    NextArgument,
    /// A term.
    Term,
    /// A step to a child.
    Successor,
    /// Which child.
    Child,
    /// What a formula says of its first term.
    Relation,
}
