//! The nonterminals of the grammar of programs.

/// A part of program text: a nonterminal of its grammar. No part is empty.
#[derive(Clone, Copy)]
pub enum ProgramPart {
    /// A declaration.
    Declaration,
    /// A type.
    Type,
    /// A variant of a type.
    Variant,
    /// A field.
    Field,
    /// A route.
    Route,
    /// A further alternative of a route.
    NextAlternative,
    /// Routes one after the other.
    Sequence,
    /// A further one of these.
    NextRepeated,
    /// A step with its stars.
    Repeated,
    /// A star.
    Star,
    /// A step of a route.
    Step,
    /// The field of a step up.
    UpName,
    /// The variant of a test.
    VariantTest,
    /// A predicate.
    Predicate,
    /// The parameters of a predicate.
    PredicateParameters,
    /// A further one of these.
    NextPredicateParameter,
    /// A parameter of a predicate.
    PredicateParameter,
    /// An assertion in brackets.
    Bracketed,
    /// A procedure.
    Procedure,
    /// The results of a procedure.
    Returns,
    /// The logic variables of a procedure.
    Logic,
    /// A further one of these.
    NextLogicParameter,
    /// A logic variable.
    LogicParameter,
    /// A precondition.
    Pre,
    /// A postcondition.
    Post,
    /// Variables, as parameters or results.
    Parameters,
    /// A further one of these.
    NextParameter,
    /// A variable with its type.
    Parameter,
    /// A local variable.
    Local,
    /// A block.
    Block,
    /// A statement.
    Statement,
    /// What an `if` does otherwise.
    Else,
    /// What follows the first name of a call.
    CallRest,
    /// A further result of a call.
    NextResult,
    /// The arguments of a call, and what it keeps.
    Arguments,
    /// The arguments for parameters.
    Argued,
    /// A further argument.
    NextArgument,
    /// The arguments for logic variables.
    LogicArguments,
    /// An argument.
    Argument,
    /// What a call keeps.
    Keep,
    /// What is assigned.
    Value,
    /// The variant of a new cell.
    NewVariant,
    /// A condition.
    Condition,
    /// A further one of these.
    NextConjunction,
    /// Literals that hold together.
    Conjunction,
    /// A further one of these.
    NextLiteral,
    /// A literal.
    Literal,
    /// What a literal says of its first term.
    LiteralRelation,
    /// A term.
    Term,
    /// A path.
    Path,
    /// A further name of a path.
    PathStep,
    /// An assertion.
    Iff,
    /// A further one of these.
    NextImplication,
    /// An implication.
    Implication,
    /// What is implied.
    Implied,
    /// Assertions one of which holds.
    OrChain,
    /// A further one of these.
    NextAndChain,
    /// Assertions that hold together.
    AndChain,
    /// A further one of these.
    NextNegation,
    /// An assertion under prefixes.
    Negation,
    /// What a quantifier binds, and its body.
    Quantified,
    /// The word that binds sets.
    SetWord,
    /// A further bound name.
    NextBound,
    /// An assertion without prefixes and connectives.
    Primary,
    /// What follows the name that begins an assertion.
    NameRest,
    /// The arguments of a predicate.
    UsedPaths,
    /// A further one of these.
    NextUsedPath,
    /// A further name of the path that begins an assertion.
    PathAloneStep,
    /// What an assertion says of the path with which it begins.
    NameRelation,
    /// What an assertion says of its first term.
    Relation,
}
