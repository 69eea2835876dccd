//! The text of a seed's program.

ghost use Rattle.std.specs.Prelude.{◌≡◌, ◌++◌, ◌%◌, ◌<◌, IfOk, OnOk};
ghost use Rattle.std.specs.List.{flat_map};
ghost use Rattle.pale_generator.specs.Generated.{filled, procedure_text, program_text, template_of, types_text};

use std::alloc::{AllocError, Global};

const TYPES: &[u8] = b"type Node = { data next: Node; }
type Dbl = { data next: Dbl; pointer prev: Dbl [^next]; }
type Tree = { data left: Tree; data right: Tree; }
";

const PUSH: &[u8] = b"proc push@(data x: Node) returns (data y: Node)
logic set S: Node
pre [all c: Node: c in S]
post [all c: Node: c in S | c = y] {
  y = new Node;
  y.next = x;
}
";

const REVERSE: &[u8] = b"proc reverse@(data x: Node) returns (data y: Node)
logic set S: Node
pre [all c: Node: c in S]
post [all c: Node: c in S] {
  data t: Node;
  while (x != null) [(all c: Node: c in S) & t = null] {
    t = x.next;
    x.next = y;
    y = x;
    x = t;
    t = null;
  }
}
";

const TWICE: &[u8] = b"proc twice@(data x: Node) returns (data y: Node)
logic set S: Node
pre [all c: Node: c in S]
post [all c: Node: c in S] {
  call y = reverse%(x; S);
  call y = reverse%(y; S) keep [x = null];
}
";

const DPUSH: &[u8] = b"proc dpush@(data x: Dbl) returns (data y: Dbl) {
  y = new Dbl;
  y.next = x;
  if (x != null) {
    x.prev = y;
  }
}
";

const GRAFT: &[u8] = b"proc graft@(data t: Tree, data s: Tree) returns (data r: Tree) {
  pointer p: Tree;
  if (t == null) {
    r = s;
  } else {
    p = t;
    while (p.left != null) [t<left*>p & r = null] {
      p = p.left;
    }
    p.left = s;
    r = t;
  }
}
";

const DROP: &[u8] = b"proc drop@(data x: Node) {
  data t: Node;
  while (x != null) [t = null] {
    t = x.next;
    free x;
    x = t;
    t = null;
  }
}
";

/// The template whose turn it is.
fn template_of(turn: u64) -> &'static [u8]
    ensures { result.now ≡ template_of turn }
{
    match turn {
        0 => PUSH,
        1 => REVERSE,
        2 => TWICE,
        3 => DPUSH,
        4 => GRAFT,
        _ => DROP,
    }
}

/// Writes a byte of the template of procedure k: `@` is its number, and `%` that of the one before.
fn push_filled(alloc: Global, text: &mut Vec<u8>, k: u64, byte: u8) -> Result<(), AllocError>
    ensures { OnOk result (text.new.items ≡ text.old.items ++ filled k byte) }
{
    match byte {
        b'@' => text.extend_from_slice(k.to_string(alloc)?.as_bytes()),
        b'%' => text.extend_from_slice(k.saturating_sub(1).to_string(alloc)?.as_bytes()),
        _ => text.extend_from_slice(&[byte]),
    }
}

/// Writes the template of procedure k.
fn push_template(
    alloc: Global,
    text: &mut Vec<u8>,
    k: u64,
    template: &[u8],
) -> Result<(), AllocError>
    ensures { OnOk result (text.new.items ≡ text.old.items ++ flat_map (filled k) template.now) }
{
    for byte in template {
        push_filled(alloc, text, k, *byte)?;
    }
    Ok(())
}

/// The program of a seed, as bytes: three types and `seed % 40 + 1` procedures.
///
/// # Errors
///
/// Want of memory.
pub fn gen_program(alloc: Global, seed: u64) -> Result<Vec<u8>, AllocError>
    ensures { IfOk result (λ text. text.items ≡ program_text seed) }
{
    let mut text = Vec::new(alloc);
    text.extend_from_slice(TYPES)?;
    for k in 0..seed % 40 + 1 {
        push_template(alloc, &mut text, k, template_of(k % 6))?;
    }
    Ok(text)
}
