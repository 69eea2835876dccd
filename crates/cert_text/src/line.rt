//! The lines of a certificate.

use plain_data::Items;

/// Numbers, in the order of the text.
pub type NumberList = Items<u32>;

/// Which formula a section is on.
#[derive(Clone, Copy, Debug, PartialEq, Eq)]
pub enum Way {
    /// The easier formula that is decided first: `easier`.
    Easier,
    /// The formula as it stands: `whole`.
    Whole,
}

/// Where a pair of classes or a side of a node leads to.
#[derive(Clone, Copy, Debug, PartialEq, Eq, Hash)]
pub enum Target {
    /// A state: `=Q`.
    State(u32),
    /// A node of the section, by its number.
    Node(u32),
}

/// `section WAY N`: how many distinct parts the formula has.
#[derive(Clone, Copy, Debug, PartialEq, Eq)]
pub struct SectionLine {
    pub way: Way,
    pub parts: u32,
}

/// `space S STATES INITIAL`
#[derive(Clone, Copy, Debug, PartialEq, Eq)]
pub struct SpaceLine {
    pub space: u32,
    pub states: u32,
    pub initial: u32,
}

/// The class of each state of a child space of S, in order: `left S C ..` or `right S C ..`.
#[derive(Debug, Drop)]
pub struct ClassLine {
    pub space: u32,
    pub classes: NumberList,
}

/// `node N TRACK LOW HIGH`
#[derive(Clone, Copy, Debug, PartialEq, Eq)]
pub struct NodeLine {
    pub node: u32,
    pub track: u32,
    pub low: Target,
    pub high: Target,
}

/// `root S C D TARGET`: where a class of the left child space and one of the right lead to.
#[derive(Clone, Copy, Debug, PartialEq, Eq)]
pub struct RootLine {
    pub space: u32,
    pub left: u32,
    pub right: u32,
    pub target: Target,
}

/// `pair S A B Q`: states of the two parts go to the state Q.
#[derive(Clone, Copy, Debug, PartialEq, Eq)]
pub struct PairLine {
    pub space: u32,
    pub first: u32,
    pub second: u32,
    pub state: u32,
}

/// `init S A`: the part's initial state.
#[derive(Clone, Copy, Debug, PartialEq, Eq)]
pub struct StartLine {
    pub space: u32,
    pub state: u32,
}

/// `settle S A L R B`: the state A is the step of L and R, states of the child spaces of S that stand in earlier lines, on the
/// label with no track, or with the bound track alone.
#[derive(Clone, Copy, Debug, PartialEq, Eq)]
pub struct SettleLine {
    pub space: u32,
    pub state: u32,
    pub left: u32,
    pub right: u32,
    pub has_bound: bool,
}

/// `set S Q A ..`: the set of the part's states A goes to the state Q.
#[derive(Debug, Drop)]
pub struct SetLine {
    pub space: u32,
    pub state: u32,
    pub members: NumberList,
}

/// A line of a certificate. Its numbers are below 4,294,967,296.
#[derive(Debug, Drop)]
pub enum Line {
    /// `pale-certificate 1`
    Certificate,
    /// `triple K`
    Triple(u32),
    /// `program`
    Program,
    Section(SectionLine),
    /// `and I`: a step on the conjunction with that number.
    And(u32),
    /// `ex I`: a step on the quantified formula with that number.
    Ex(u32),
    Space(SpaceLine),
    Left(ClassLine),
    Right(ClassLine),
    Node(NodeLine),
    Root(RootLine),
    /// `accept Q ..`: the accepting states of space 0.
    Accept(NumberList),
    Pair(PairLine),
    Start(StartLine),
    Settle(SettleLine),
    Set(SetLine),
    /// `end`: the end of a section.
    End,
}
