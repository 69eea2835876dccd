//! The forms of the lines.

ghost use Rattle.std.specs.Prelude.{◌≡◌, IfOk};
ghost use Rattle.cert_text.specs.Reading.{certificate_line, triple_line, section_line, and_line, ex_line, space_line, left_line, right_line};
ghost use Rattle.cert_text.specs.Reading.{node_line, root_line, accept_line, pair_line, start_line, settle_line, set_line};
ghost use Rattle.cert_text.specs.Reading.{heading_line, step_line, table_line, listing_line};

use crate::line::{
    ClassLine, Line, NodeLine, PairLine, RootLine, SectionLine, SetLine, SettleLine, SpaceLine,
    StartLine,
};
use crate::read::fields::{bit_next, ended, number_next, numbers_of, target_next, way_next};
use std::alloc::{AllocError, Global};

/// ` 1`, after `pale-certificate`.
#[tactic(auto, unfolding(crate::specs::Reading::certificate_line))]
fn certificate_line(bytes: &[u8]) -> Option<Line>
    ensures { result ≡ certificate_line bytes.now }
{
    if bytes == b" 1".as_slice() {
        Some(Line::Certificate)
    } else {
        None
    }
}

/// ` K`, after `triple`.
#[tactic(auto, unfolding(crate::specs::Reading::triple_line))]
fn triple_line(bytes: &[u8]) -> Option<Line>
    ensures { result ≡ triple_line bytes.now }
{
    let (number, left) = number_next(bytes)?;
    ended(left, Line::Triple(number))
}

/// ` WAY N`, after `section`.
#[tactic(auto, unfolding(crate::specs::Reading::section_line))]
fn section_line(bytes: &[u8]) -> Option<Line>
    ensures { result ≡ section_line bytes.now }
{
    let (way, left) = way_next(bytes)?;
    let (parts, left) = number_next(left)?;
    ended(left, Line::Section(SectionLine { way, parts }))
}

/// ` I`, after `and`.
#[tactic(auto, unfolding(crate::specs::Reading::and_line))]
fn and_line(bytes: &[u8]) -> Option<Line>
    ensures { result ≡ and_line bytes.now }
{
    let (part, left) = number_next(bytes)?;
    ended(left, Line::And(part))
}

/// ` I`, after `ex`.
#[tactic(auto, unfolding(crate::specs::Reading::ex_line))]
fn ex_line(bytes: &[u8]) -> Option<Line>
    ensures { result ≡ ex_line bytes.now }
{
    let (part, left) = number_next(bytes)?;
    ended(left, Line::Ex(part))
}

/// ` S STATES INITIAL`, after `space`.
#[tactic(auto, unfolding(crate::specs::Reading::space_line))]
fn space_line(bytes: &[u8]) -> Option<Line>
    ensures { result ≡ space_line bytes.now }
{
    let (space, left) = number_next(bytes)?;
    let (states, left) = number_next(left)?;
    let (initial, left) = number_next(left)?;
    let line = SpaceLine {
        space,
        states,
        initial,
    };
    ended(left, Line::Space(line))
}

/// ` S C ..`, after `left`.
#[tactic(auto, unfolding(crate::specs::Reading::left_line))]
fn left_line(alloc: Global, bytes: &[u8]) -> Result<Option<Line>, AllocError>
    ensures { IfOk result (λ line. line ≡ left_line bytes.now) }
{
    let Some((space, left)) = number_next(bytes) else {
        return Ok(None);
    };
    let Some(classes) = numbers_of(alloc, left)? else {
        return Ok(None);
    };
    Ok(Some(Line::Left(ClassLine { space, classes })))
}

/// ` S C ..`, after `right`.
#[tactic(auto, unfolding(crate::specs::Reading::right_line))]
fn right_line(alloc: Global, bytes: &[u8]) -> Result<Option<Line>, AllocError>
    ensures { IfOk result (λ line. line ≡ right_line bytes.now) }
{
    let Some((space, left)) = number_next(bytes) else {
        return Ok(None);
    };
    let Some(classes) = numbers_of(alloc, left)? else {
        return Ok(None);
    };
    Ok(Some(Line::Right(ClassLine { space, classes })))
}

/// ` N TRACK LOW HIGH`, after `node`.
#[tactic(auto, unfolding(crate::specs::Reading::node_line))]
fn node_line(bytes: &[u8]) -> Option<Line>
    ensures { result ≡ node_line bytes.now }
{
    let (node, left) = number_next(bytes)?;
    let (track, left) = number_next(left)?;
    let (low, left) = target_next(left)?;
    let (high, left) = target_next(left)?;
    let line = NodeLine {
        node,
        track,
        low,
        high,
    };
    ended(left, Line::Node(line))
}

/// ` S C D TARGET`, after `root`.
#[tactic(auto, unfolding(crate::specs::Reading::root_line))]
fn root_line(bytes: &[u8]) -> Option<Line>
    ensures { result ≡ root_line bytes.now }
{
    let (space, rest) = number_next(bytes)?;
    let (left, rest) = number_next(rest)?;
    let (right, rest) = number_next(rest)?;
    let (target, rest) = target_next(rest)?;
    let line = RootLine {
        space,
        left,
        right,
        target,
    };
    ended(rest, Line::Root(line))
}

/// ` Q ..`, after `accept`.
#[tactic(auto, unfolding(crate::specs::Reading::accept_line))]
fn accept_line(alloc: Global, bytes: &[u8]) -> Result<Option<Line>, AllocError>
    ensures { IfOk result (λ line. line ≡ accept_line bytes.now) }
{
    match numbers_of(alloc, bytes)? {
        None => Ok(None),
        Some(states) => Ok(Some(Line::Accept(states))),
    }
}

/// ` S A B Q`, after `pair`.
#[tactic(auto, unfolding(crate::specs::Reading::pair_line))]
fn pair_line(bytes: &[u8]) -> Option<Line>
    ensures { result ≡ pair_line bytes.now }
{
    let (space, left) = number_next(bytes)?;
    let (first, left) = number_next(left)?;
    let (second, left) = number_next(left)?;
    let (state, left) = number_next(left)?;
    let line = PairLine {
        space,
        first,
        second,
        state,
    };
    ended(left, Line::Pair(line))
}

/// ` S A`, after `init`.
#[tactic(auto, unfolding(crate::specs::Reading::start_line))]
fn start_line(bytes: &[u8]) -> Option<Line>
    ensures { result ≡ start_line bytes.now }
{
    let (space, left) = number_next(bytes)?;
    let (state, left) = number_next(left)?;
    ended(left, Line::Start(StartLine { space, state }))
}

/// ` S A L R B`, after `settle`.
#[tactic(auto, unfolding(crate::specs::Reading::settle_line))]
fn settle_line(bytes: &[u8]) -> Option<Line>
    ensures { result ≡ settle_line bytes.now }
{
    let (space, rest) = number_next(bytes)?;
    let (state, rest) = number_next(rest)?;
    let (left, rest) = number_next(rest)?;
    let (right, rest) = number_next(rest)?;
    let (has_bound, rest) = bit_next(rest)?;
    let line = SettleLine {
        space,
        state,
        left,
        right,
        has_bound,
    };
    ended(rest, Line::Settle(line))
}

/// ` S Q A ..`, after `set`.
#[tactic(auto, unfolding(crate::specs::Reading::set_line))]
fn set_line(alloc: Global, bytes: &[u8]) -> Result<Option<Line>, AllocError>
    ensures { IfOk result (λ line. line ≡ set_line bytes.now) }
{
    let Some((space, left)) = number_next(bytes) else {
        return Ok(None);
    };
    let Some((state, left)) = number_next(left) else {
        return Ok(None);
    };
    let Some(members) = numbers_of(alloc, left)? else {
        return Ok(None);
    };
    let line = SetLine {
        space,
        state,
        members,
    };
    Ok(Some(Line::Set(line)))
}

/// A line by its word, of those that begin or end a part of a certificate.
#[tactic(auto, unfolding(crate::specs::Reading::heading_line))]
fn heading_line(word: &[u8], bytes: &[u8]) -> Option<Line>
    ensures { result ≡ heading_line word.now bytes.now }
{
    if word == b"pale-certificate".as_slice() {
        return certificate_line(bytes);
    }
    if word == b"triple".as_slice() {
        return triple_line(bytes);
    }
    if word == b"program".as_slice() {
        return ended(bytes, Line::Program);
    }
    if word == b"section".as_slice() {
        return section_line(bytes);
    }
    if word == b"end".as_slice() {
        return ended(bytes, Line::End);
    }
    None
}

/// A line by its word, of those too that begin a step or settle a state.
#[tactic(auto, unfolding(crate::specs::Reading::step_line))]
fn step_line(word: &[u8], bytes: &[u8]) -> Option<Line>
    ensures { result ≡ step_line word.now bytes.now }
{
    if word == b"and".as_slice() {
        return and_line(bytes);
    }
    if word == b"ex".as_slice() {
        return ex_line(bytes);
    }
    if word == b"space".as_slice() {
        return space_line(bytes);
    }
    if word == b"init".as_slice() {
        return start_line(bytes);
    }
    if word == b"settle".as_slice() {
        return settle_line(bytes);
    }
    heading_line(word, bytes)
}

/// A line by its word, of those too that tables consist of.
#[tactic(auto, unfolding(crate::specs::Reading::table_line))]
fn table_line(word: &[u8], bytes: &[u8]) -> Option<Line>
    ensures { result ≡ table_line word.now bytes.now }
{
    if word == b"pair".as_slice() {
        return pair_line(bytes);
    }
    if word == b"node".as_slice() {
        return node_line(bytes);
    }
    if word == b"root".as_slice() {
        return root_line(bytes);
    }
    step_line(word, bytes)
}

/// A line by its word, of all.
#[tactic(auto, unfolding(crate::specs::Reading::listing_line))]
pub fn listing_line(alloc: Global, word: &[u8], bytes: &[u8]) -> Result<Option<Line>, AllocError>
    ensures { IfOk result (λ line. line ≡ listing_line word.now bytes.now) }
{
    if word == b"set".as_slice() {
        return set_line(alloc, bytes);
    }
    if word == b"left".as_slice() {
        return left_line(alloc, bytes);
    }
    if word == b"right".as_slice() {
        return right_line(alloc, bytes);
    }
    if word == b"accept".as_slice() {
        return accept_line(alloc, bytes);
    }
    Ok(table_line(word, bytes))
}
