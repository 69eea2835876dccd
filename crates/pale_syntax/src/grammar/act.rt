//! What is made of program text while it is read. `specs/ProgramGrammar.antt` says where each stands, and
//! `specs/Making.antt` what it makes.

/// Something that is made of what was read so far, by the constructs to which it belongs.
#[derive(Clone, Copy)]
pub enum Act {
    /// Names, places, terms and paths, which several constructs share.
    Word(WordAct),
    /// Routes.
    Route(RouteAct),
    /// Conditions of the code.
    Condition(ConditionAct),
    /// Assertions that have no others in them.
    Atom(AtomAct),
    /// Connectives, quantifiers and the brackets round assertions.
    Connective(ConnectiveAct),
    /// Statements and blocks.
    Statement(StatementAct),
    /// Calls.
    Call(CallAct),
    /// Type declarations.
    Type(TypeAct),
    /// Predicate declarations.
    Predicate(PredicateAct),
    /// Procedure declarations.
    Procedure(ProcedureAct),
}

/// Names, places, terms and paths, which several constructs share.
#[derive(Clone, Copy)]
pub enum WordAct {
    /// The token read last is a name.
    PushName,
    /// The place of the token read last.
    MarkPlace,
    /// The place of the token that comes next.
    MarkNext,
    /// A path of the last name alone.
    StartPath,
    /// The last name goes to the end of the last path.
    ExtendPath,
    /// The token read last is the term `null`.
    PushNull,
    /// The last path is a term.
    PathTerm,
}

/// Routes.
#[derive(Clone, Copy)]
pub enum RouteAct {
    /// Down the field of the last name.
    Down,
    /// Up any data field.
    UpAny,
    /// That step up goes by the field of the last name.
    NameUp,
    /// A test for leaves.
    Leaf,
    /// A test for roots.
    Root,
    /// A test for the type of the last name.
    IsType,
    /// That test is for the variant of the last name.
    NarrowToVariant,
    /// A test that the bool field of the last name is true.
    IsTrue,
    /// A test that the bool field of the last name is false.
    IsFalse,
    /// One of the last two routes after the other.
    JoinThen,
    /// One of the last two routes or the other.
    JoinOr,
    /// The last route any number of times.
    AddStar,
}

/// Conditions of the code.
#[derive(Clone, Copy)]
pub enum ConditionAct {
    /// `true`
    TrueCondition,
    /// `false`
    FalseCondition,
    /// The last term, as a condition.
    TermAlone,
    /// The last condition is a term alone, and that is a side of what follows.
    TakeTermBack,
    /// The last two terms are the same.
    SameAs,
    /// The last two terms differ.
    NotSameAs,
    /// The last term is of the variant of the last name.
    OfVariant,
    /// The last condition does not hold.
    NotCondition,
    /// Both of the last two conditions.
    JoinAndAlso,
    /// One of the last two conditions.
    JoinOrElse,
}

/// Assertions that have no others in them.
#[derive(Clone, Copy)]
pub enum AtomAct {
    /// `true`
    TrueAssertion,
    /// `false`
    FalseAssertion,
    /// The last path, as an assertion.
    PathAlone,
    /// The last name goes to the end of the path that is the last assertion.
    ExtendPathAlone,
    /// The last assertion is a path alone, and that is a side of what follows.
    TakePathBack,
    /// The last path is an argument of the use to come.
    AddUsedPath,
    /// The last assertion is a path alone: a use of the predicate of that name.
    MakeUse,
    /// The last two terms are the same.
    MakeSame,
    /// The last two terms differ.
    MakeDiffer,
    /// The last term lies in the set of the last name.
    MakeMember,
    /// The last term, a set, is a subset of the set of the last name.
    MakeSubset,
    /// The last route joins the last two terms.
    MakeWalk,
    /// The last term is of the variant of the last name.
    MakeIs,
}

/// Connectives, quantifiers and the brackets round assertions.
#[derive(Clone, Copy)]
pub enum ConnectiveAct {
    /// The last two assertions are equivalent.
    JoinIff,
    /// The last assertion but one implies the last.
    MakeImp,
    /// One of the last two assertions.
    JoinOr,
    /// Both of the last two assertions.
    JoinAnd,
    /// The last assertion does not hold.
    MakeNot,
    /// A quantifier `ex` begins.
    BeginEx,
    /// A quantifier `all` begins.
    BeginAll,
    /// The last quantifier binds sets.
    BindsSets,
    /// The last quantifier binds the last name.
    AddBound,
    /// The last quantifier binds over the type of the last name, and the last assertion is its body.
    MakeQuantified,
    /// The last assertion stands in brackets.
    Bracket,
}

/// Statements and blocks.
#[derive(Clone, Copy)]
pub enum StatementAct {
    /// A block begins.
    BeginBlock,
    /// `skip`
    MakeSkip,
    /// An `if` has no `else` so far.
    NoElse,
    /// The last block is its `else`.
    SetElse,
    /// `if`
    MakeIf,
    /// `while`
    MakeWhile,
    /// `split`
    MakeSplit,
    /// `assert`
    MakeAssert,
    /// `free` of the variable of the last name.
    MakeFree,
    /// A new cell of the type of the last name.
    MakeNew,
    /// That cell is of the variant of the last name.
    NarrowNew,
    /// The value of the last condition.
    MakeValue,
    /// The last path gets the last value.
    MakeAssign,
}

/// Calls.
#[derive(Clone, Copy)]
pub enum CallAct {
    /// The last name gets a result.
    TakeResult,
    /// The last name is an argument.
    NameArgument,
    /// `null` is an argument.
    NullArgument,
    /// `true` is an argument.
    TrueArgument,
    /// `false` is an argument.
    FalseArgument,
    /// The arguments so far are for parameters, and those to come for logic variables.
    TakeArguments,
    /// The last assertion in brackets is kept over the call.
    SetKeep,
    /// `call` of the procedure of the last name.
    MakeCall,
}

/// Type declarations.
#[derive(Clone, Copy)]
pub enum TypeAct {
    /// A bool field.
    BoolField,
    /// A data field.
    DataField,
    /// A pointer field, with the last route.
    PointerField,
    /// The fields so far are common to all variants.
    EndCommon,
    /// A variant, with the fields since then.
    AddVariant,
    /// A type.
    AddType,
}

/// Predicate declarations.
#[derive(Clone, Copy)]
pub enum PredicateAct {
    /// A parameter that is a cell.
    CellParameter,
    /// A parameter that is a set.
    SetParameter,
    /// A parameter that is a bool.
    BoolParameter,
    /// A predicate.
    AddPredicate,
}

/// Procedure declarations.
#[derive(Clone, Copy)]
pub enum ProcedureAct {
    /// A data variable.
    DataParameter,
    /// A pointer variable.
    PointerParameter,
    /// A bool variable.
    BoolVariable,
    /// The variables so far are parameters.
    TakeParameters,
    /// The variables since then are results.
    TakeResults,
    /// A logic variable that is a set.
    LogicSet,
    /// A logic variable that is a bool.
    LogicBool,
    /// The last assertion in brackets is the precondition.
    SetPre,
    /// The last assertion in brackets is the postcondition.
    SetPost,
    /// A procedure, whose variables since the results are its locals.
    AddProcedure,
}
