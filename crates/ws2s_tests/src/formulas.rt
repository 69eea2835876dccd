//! Formulas as short texts, each form after its parts, their comparison, and the rewriters.

use std::alloc::{AllocError, Global};
use ws2s_core::{Formula, Interner, Track, intern};
use ws2s_narrow::narrow_scope;
use ws2s_pass::{drop_unused, flatten_not, fold_constants};

/// How many levels a tower has.
pub const LEVELS: u32 = 65_536;

/// The track that a letter names at a level of a tower: `k` is the level, counted from 0, `j` the next one, `d` and `e` the same
/// from the other end, `n` the number of levels and `m` one more; a digit is itself.
fn track(letter: u8, level: u32) -> Track {
    Track(match letter {
        b'k' => level,
        b'j' => level.wrapping_add(1),
        b'd' => LEVELS.wrapping_sub(level),
        b'e' => LEVELS.wrapping_sub(level).wrapping_add(1),
        b'n' => LEVELS,
        b'm' => LEVELS + 1,
        _ => (letter & 15) as u32,
    })
}

/// Takes off the last part; where there is none, that track 9 has the root.
fn last(parts: &mut Vec<Formula>) -> Formula {
    match parts.pop() {
        Some(part) => part,
        None => Formula::Root(Track(9)),
    }
}

/// The conjunction of a copy of the part and the part.
fn twice(alloc: Global, part: Formula) -> Result<Formula, AllocError> {
    let copy = part.copy(alloc)?;
    Formula::and(alloc, copy, part)
}

/// What `and`, `not` or `twice` makes of the last parts, and `front` of two with the last one in front.
fn joined(alloc: Global, word: &[u8], parts: &mut Vec<Formula>) -> Result<Formula, AllocError> {
    let one = last(parts);
    if word == b"not".as_slice() {
        return Formula::not(alloc, one);
    }
    if word == b"twice".as_slice() {
        return twice(alloc, one);
    }
    let other = last(parts);
    if word == b"and".as_slice() {
        Formula::and(alloc, other, one)
    } else {
        Formula::and(alloc, one, other)
    }
}

/// What a word makes at a level, of the last parts where it takes some.
fn made(
    alloc: Global,
    word: &[u8],
    level: u32,
    parts: &mut Vec<Formula>,
) -> Result<Formula, AllocError> {
    match word {
        [b'x', t] => Formula::ex2(alloc, track(*t, level), last(parts)),
        [b'=', x] => Ok(Formula::Single(track(*x, level))),
        [b'.', x] => Ok(Formula::Root(track(*x, level))),
        [x, b'<', y] => Ok(Formula::Sub(track(*x, level), track(*y, level))),
        [x, b'0', y] => Ok(Formula::Succ0(track(*x, level), track(*y, level))),
        [x, b'1', y] => Ok(Formula::Succ1(track(*x, level), track(*y, level))),
        _ => joined(alloc, word, parts),
    }
}

/// Puts what a text makes at a level behind the parts.
fn add(alloc: Global, text: &str, level: u32, parts: &mut Vec<Formula>) -> Result<(), AllocError> {
    for word in text.split_whitespace() {
        let part = made(alloc, word.as_bytes(), level, parts)?;
        parts.push(part)?;
    }
    Ok(())
}

/// A text, with the first level for which it stands and the one past the last.
pub type Part = (&'static str, u32, u32);

/// Puts what texts make at their levels behind the parts.
fn add_each(alloc: Global, texts: &[Part], parts: &mut Vec<Formula>) -> Result<(), AllocError> {
    for (text, from, to) in texts {
        for level in *from..*to {
            add(alloc, text, level, parts)?;
        }
    }
    Ok(())
}

/// The formula of texts one after the other: `=3` is `Single 3`, `.3` is `Root 3`, `3<4` is `Sub 3 4`, `304` is `Succ0 3 4`, `314`
/// is `Succ1 3 4`, and `and`, `front`, `not`, `twice` and `x3`, which is `Ex2 3`, stand after their parts.
pub fn tower(alloc: Global, texts: &[Part]) -> Result<Formula, AllocError> {
    let mut parts = Vec::new(alloc);
    add_each(alloc, texts, &mut parts)?;
    Ok(last(&mut parts))
}

/// The formula of a text.
pub fn formula(alloc: Global, text: &str) -> Result<Formula, AllocError> {
    let mut parts = Vec::new(alloc);
    add(alloc, text, 0, &mut parts)?;
    Ok(last(&mut parts))
}

/// Whether both formulas have one number.
fn are_one(
    alloc: Global,
    interner: &mut Interner,
    one: &Formula,
    other: &Formula,
) -> Result<bool, AllocError> {
    let first = intern(alloc, interner, one)?;
    let second = intern(alloc, interner, other)?;
    Ok(first == second)
}

/// Whether both formulas are the same.
pub fn are_equal(alloc: Global, one: &Formula, other: &Formula) -> Result<bool, AllocError> {
    let mut interner = Interner::new(alloc);
    are_one(alloc, &mut interner, one, other)
}

/// Whether the formula is that of the text.
pub fn is(alloc: Global, made: &Formula, text: &str) -> Result<bool, AllocError> {
    let wanted = formula(alloc, text)?;
    are_equal(alloc, made, &wanted)
}

/// A rewriter.
#[derive(Clone, Copy)]
pub enum Rewriting {
    /// `flatten_not`: no two negations stand together.
    Flat,
    /// `drop_unused`: quantifiers of what isn't free are left out.
    Used,
    /// `fold_constants`: constants are folded.
    Folded,
    /// `narrow_scope`: quantifiers stand as far inside as they may.
    Narrow,
}

/// What the rewriter makes of the formula.
pub fn rewritten(alloc: Global, by: Rewriting, whole: &Formula) -> Result<Formula, AllocError> {
    match by {
        Rewriting::Flat => flatten_not(alloc, whole),
        Rewriting::Used => drop_unused(alloc, whole),
        Rewriting::Folded => fold_constants(alloc, whole),
        Rewriting::Narrow => narrow_scope(alloc, whole),
    }
}
