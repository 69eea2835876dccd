//! What holds of the canonical spelling of programs: it is read back as the same program but for places, it opens no more
//! levels than any text of the program, no text of the program has fewer tokens, and none of its parentheses can go.
//!
//! And what holds of the trees of programs, whatever the text: each place in a tree is that of the token that its form names,
//! each act of a reading takes what was made before it, and nothing is left over. `specs/*Words.antt` say which tokens a tree
//! stands for, and which places it keeps; `specs/Operands.antt` says what each act takes.
#![tactic(auto)]

mod laws;
mod place_laws;

pub use laws::{
    canonical_programs_are_read_back, programs_are_canonical, programs_are_read_back,
    spellings_are_shortest, spellings_need_their_parentheses,
};
pub use place_laws::{
    acts_have_their_operands, nothing_is_left_over, words_of_an_example,
    words_stand_at_their_places,
};
