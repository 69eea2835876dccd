//! Lines written to a text.

ghost use Rattle.std.specs.Prelude.{◌≡◌, ◌++◌, codes, OnOk};
ghost use Rattle.cert_text.specs.Spelling.{number_text, numbers_texts, way_text, target_text, bit_text, word_of, fields_of, joined, line_text};
ghost use Rattle.cert_text.specs.declared.line.Line.TheVariants as lines;

use crate::line::{
    ClassLine, Line, NodeLine, RootLine, SectionLine, SetLine, SettleLine, Target, Way,
};
use std::alloc::{AllocError, Global};

/// The word that a line begins with. Takes no memory.
fn word_of(line: &Line) -> &'static str
    ensures { result.now ≡ word_of line.now }
{
    match line {
        Line::Certificate => "pale-certificate",
        Line::Triple(_) => "triple",
        Line::Program => "program",
        Line::Section(_) => "section",
        Line::And(_) => "and",
        Line::Ex(_) => "ex",
        Line::Space(_) => "space",
        Line::Left(_) => "left",
        Line::Right(_) => "right",
        Line::Node(_) => "node",
        Line::Root(_) => "root",
        Line::Accept(_) => "accept",
        Line::Pair(_) => "pair",
        Line::Start(_) => "init",
        Line::Settle(_) => "settle",
        Line::Set(_) => "set",
        Line::End => "end",
    }
}

/// A space and a number.
fn push_number(alloc: Global, text: &mut Vec<u8>, number: u32) -> Result<(), AllocError>
    ensures { OnOk result (text.new.items ≡ text.old.items ++ number_text number) }
{
    text.push(b' ')?;
    text.extend_from_slice(number.to_string(alloc)?.as_bytes())
}

/// Numbers, with a space before each.
fn push_numbers(alloc: Global, text: &mut Vec<u8>, numbers: &[u32]) -> Result<(), AllocError>
    ensures { OnOk result (text.new.items ≡ text.old.items ++ joined (numbers_texts numbers.now)) }
{
    for number in numbers {
        push_number(alloc, text, *number)?;
    }
    Ok(())
}

/// `easier` or `whole`, after a space.
fn push_way(text: &mut Vec<u8>, way: Way) -> Result<(), AllocError>
    ensures { OnOk result (text.new.items ≡ text.old.items ++ way_text way) }
{
    match way {
        Way::Easier => text.extend_from_slice(b" easier"),
        Way::Whole => text.extend_from_slice(b" whole"),
    }
}

/// A state with `=` before it or a node, after a space.
fn push_target(alloc: Global, text: &mut Vec<u8>, target: Target) -> Result<(), AllocError>
    ensures { OnOk result (text.new.items ≡ text.old.items ++ target_text target) }
{
    match target {
        Target::Node(node) => push_number(alloc, text, node),
        Target::State(state) => {
            text.extend_from_slice(b" =")?;
            text.extend_from_slice(state.to_string(alloc)?.as_bytes())
        }
    }
}

/// `1` or `0`, after a space.
fn push_bit(text: &mut Vec<u8>, bit: bool) -> Result<(), AllocError>
    ensures { OnOk result (text.new.items ≡ text.old.items ++ bit_text bit) }
{
    if bit {
        text.extend_from_slice(b" 1")
    } else {
        text.extend_from_slice(b" 0")
    }
}

/// The fields of a line `section`.
fn push_section(alloc: Global, text: &mut Vec<u8>, line: &SectionLine) -> Result<(), AllocError>
    ensures { OnOk result (text.new.items ≡ text.old.items ++ joined (fields_of (lines.Section line.now))) }
{
    push_way(text, line.way)?;
    push_number(alloc, text, line.parts)
}

/// The fields of a line `left` or `right`.
fn push_classes(alloc: Global, text: &mut Vec<u8>, line: &ClassLine) -> Result<(), AllocError>
    ensures { OnOk result (text.new.items ≡ text.old.items ++ joined (fields_of (lines.Left line.now))) }
{
    push_number(alloc, text, line.space)?;
    push_numbers(alloc, text, line.classes.as_slice())
}

/// The fields of a line `node`.
fn push_node(alloc: Global, text: &mut Vec<u8>, line: &NodeLine) -> Result<(), AllocError>
    ensures { OnOk result (text.new.items ≡ text.old.items ++ joined (fields_of (lines.Node line.now))) }
{
    push_number(alloc, text, line.node)?;
    push_number(alloc, text, line.track)?;
    push_target(alloc, text, line.low)?;
    push_target(alloc, text, line.high)
}

/// The fields of a line `root`.
fn push_root(alloc: Global, text: &mut Vec<u8>, line: &RootLine) -> Result<(), AllocError>
    ensures { OnOk result (text.new.items ≡ text.old.items ++ joined (fields_of (lines.Root line.now))) }
{
    push_number(alloc, text, line.space)?;
    push_number(alloc, text, line.left)?;
    push_number(alloc, text, line.right)?;
    push_target(alloc, text, line.target)
}

/// The fields of a line `settle`.
fn push_settle(alloc: Global, text: &mut Vec<u8>, line: &SettleLine) -> Result<(), AllocError>
    ensures { OnOk result (text.new.items ≡ text.old.items ++ joined (fields_of (lines.Settle line.now))) }
{
    push_number(alloc, text, line.space)?;
    push_number(alloc, text, line.state)?;
    push_number(alloc, text, line.left)?;
    push_number(alloc, text, line.right)?;
    push_bit(text, line.has_bound)
}

/// The fields of a line `set`.
fn push_set(alloc: Global, text: &mut Vec<u8>, line: &SetLine) -> Result<(), AllocError>
    ensures { OnOk result (text.new.items ≡ text.old.items ++ joined (fields_of (lines.Set line.now))) }
{
    push_number(alloc, text, line.space)?;
    push_number(alloc, text, line.state)?;
    push_numbers(alloc, text, line.members.as_slice())
}

/// The fields of a line.
fn push_fields(alloc: Global, text: &mut Vec<u8>, line: &Line) -> Result<(), AllocError>
    ensures { OnOk result (text.new.items ≡ text.old.items ++ joined (fields_of line.now)) }
{
    match line {
        Line::Certificate => text.extend_from_slice(b" 1"),
        Line::Program | Line::End => Ok(()),
        Line::Triple(number) | Line::And(number) | Line::Ex(number) => {
            push_numbers(alloc, text, &[*number])
        }
        Line::Section(section) => push_section(alloc, text, section),
        Line::Space(space) => {
            push_numbers(alloc, text, &[space.space, space.states, space.initial])
        }
        Line::Left(classes) | Line::Right(classes) => push_classes(alloc, text, classes),
        Line::Node(node) => push_node(alloc, text, node),
        Line::Root(root) => push_root(alloc, text, root),
        Line::Accept(states) => push_numbers(alloc, text, states.as_slice()),
        Line::Pair(pair) => push_numbers(
            alloc,
            text,
            &[pair.space, pair.first, pair.second, pair.state],
        ),
        Line::Start(start) => push_numbers(alloc, text, &[start.space, start.state]),
        Line::Settle(settle) => push_settle(alloc, text, settle),
        Line::Set(set) => push_set(alloc, text, set),
    }
}

/// Writes a line, its LF included, behind a text. What is written is read again as that line.
///
/// # Errors
///
/// Want of memory, after which any part of the line may stand there.
pub fn push_line(alloc: Global, text: &mut Vec<u8>, line: &Line) -> Result<(), AllocError>
    ensures { OnOk result (text.new.items ≡ text.old.items ++ line_text line.now) }
{
    text.extend_from_slice(word_of(line).as_bytes())?;
    push_fields(alloc, text, line)?;
    text.extend_from_slice(b"\n")
}
