//! The parts of a grammar's rows.

/// A part of a row, where `N` are the nonterminals, `A` the acts and `K` the kinds of tokens.
#[derive(Clone, Copy, Debug)]
pub enum Symbol<N, A, K> {
    /// A token of this kind.
    Read(K),
    /// A token of this kind, which opens a level. The level is closed at the end of its row.
    Open(K),
    /// What the nonterminal stands for, once.
    Once(N),
    /// What the nonterminal stands for, once or not at all.
    Maybe(N),
    /// What the nonterminal stands for, any number of times.
    Many(N),
    /// No token but a semantic action: what is to be made of what was read so far.
    Act(A),
}

/// What happens in a reading, from the left: a token is read, or something is made.
#[derive(Clone, Copy, Debug)]
pub enum Event<A> {
    /// The next token is read.
    Token,
    /// Something is made of what was read so far.
    Act(A),
}
