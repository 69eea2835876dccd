//! What is made of WS2S text while it is read. `specs/SourceGrammar.antt` says where each stands, and
//! `specs/Making.antt` what it makes.

/// Something that is made of what was read so far, by the constructs to which it belongs.
#[derive(Clone, Copy)]
pub enum SourceAct {
    /// Items and what they declare.
    Item(ItemAct),
    /// Names and terms.
    Term(TermAct),
    /// Formulas that have no others in them.
    Atom(AtomAct),
    /// Connectives and quantifiers.
    Connective(ConnectiveAct),
}

/// Items and what they declare.
#[derive(Clone, Copy)]
pub enum ItemAct {
    /// The token read last is a free variable.
    AddVariable,
    /// The free variables since the last item are positions.
    DeclarePositions,
    /// The free variables since the last item are sets.
    DeclareSets,
    /// The token read last is a parameter that is a position.
    PositionParameter,
    /// The token read last is a parameter that is a set.
    SetParameter,
    /// A predicate of the last name, whose body is the last formula.
    AddPredicate,
    /// The last formula is an item.
    AddFormula,
}

/// Names and terms.
#[derive(Clone, Copy)]
pub enum TermAct {
    /// The token read last is a name.
    PushName,
    /// A term begins at the root.
    StartRoot,
    /// A term begins at the last name.
    StartName,
    /// The last term goes on to the child 0.
    AddZero,
    /// The last term goes on to the child 1.
    AddOne,
    /// The last term is an argument of the use to come.
    AddArgument,
}

/// Formulas that have no others in them.
#[derive(Clone, Copy)]
pub enum AtomAct {
    /// `true`
    TrueFormula,
    /// `false`
    FalseFormula,
    /// The set of the name read last is empty.
    MakeEmpty,
    /// A use of the predicate of the last name.
    MakeUse,
    /// The last two terms are the same.
    MakeSame,
    /// The last two terms differ.
    MakeDiffer,
    /// The last term lies in the set of the name read last.
    MakeIn,
    /// The last term does not lie in the set of the name read last.
    MakeNotIn,
    /// The last term, a set, is within the set of the name read last.
    MakeSub,
}

/// Connectives and quantifiers.
#[derive(Clone, Copy)]
pub enum ConnectiveAct {
    /// The last two formulas are equivalent.
    JoinIff,
    /// The last formula but one implies the last.
    MakeImplies,
    /// One of the last two formulas.
    JoinOr,
    /// Both of the last two formulas.
    JoinAnd,
    /// The last formula does not hold.
    MakeNot,
    /// A quantifier `ex1` begins.
    BeginEx1,
    /// A quantifier `all1` begins.
    BeginAll1,
    /// A quantifier `ex2` begins.
    BeginEx2,
    /// A quantifier `all2` begins.
    BeginAll2,
    /// The last quantifier binds the name read last.
    AddBound,
    /// The last formula is the body of the last quantifier.
    MakeQuantified,
}
