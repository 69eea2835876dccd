//! Where procedures begin and end. Of an end an answer has the line alone.

ghost use Rattle.std.specs.Prelude.{◌<◌, length};

use pale_parse::parse;
use pale_syntax::{Declaration, Program};
use pale_text::{TextStop, lex};
use std::alloc::Global;
use std::test::Fail;

static TEXT: &[u8] = b"type T = { bool b; } | v { } | w { data n: T; pointer p: T [^n]; }
pred r(x: T, set S: T, bool b) = [x in S & b];
proc p() { }
proc q(data x: T, bool c) returns (pointer y: T) logic set S: T, bool d pre [c] {
  data t: T;
  call t = q(x, true; S, d) keep [c];
  if (!c) { skip; } else { free t; }
  x.n = t;
}
";

/// Whether the procedures among the declarations begin and end there: a line and a column, and once more.
fn are_at(declarations: &[Declaration], wanted: &[[u32; 4]]) -> bool {
    let mut left = wanted;
    for declaration in declarations {
        let Declaration::Procedure(procedure) = declaration else {
            continue;
        };
        let Some((there, others)) = left.split_first() else {
            return false;
        };
        let (first, last) = (procedure.place, procedure.end);
        if [first.line, first.column, last.line, last.column] != *there {
            return false;
        }
        left = others;
    }
    left.is_empty()
}

/// The tree of a text.
fn tree_of(alloc: Global, text: &[u8]) -> Result<Program, TextStop>
    requires { length text.now < u32.MAX }
{
    let list = lex(alloc, text)?;
    parse(alloc, &list)
}

/// Whether the procedures of a text begin and end there.
fn begin_and_end(alloc: Global, text: &[u8], wanted: &[[u32; 4]]) -> Result<bool, TextStop> {
    if text.len() >= 1000 {
        return Ok(false);
    }
    let program = tree_of(alloc, text)?;
    Ok(are_at(program.declarations.as_slice(), wanted))
}

#[test]
fn procedures_last_from_their_keyword_to_their_brace(rt: HostRuntime) -> Result<(), Fail> {
    assert!(rt; begin_and_end(rt.alloc(), TEXT, &[[3, 1, 3, 12], [4, 1, 9, 1]])?);
    Ok(())
}
