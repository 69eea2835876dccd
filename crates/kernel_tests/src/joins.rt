//! A join by a rule that refuses.

ghost use Rattle.std.specs.Prelude.{◌≡◌, All, IfOk, length};
ghost use Rattle.bdd_nodes.specs.declared.node_ref.NodeRef.{NodeRef};
ghost use Rattle.bdd_nodes.specs.Shelf.{IsValid};

use crate::nodes::{decision, states};
use bdd_nodes::{Full, NodeRef, RefList, Shelf};
use bdd_walk::{LeafRule, StateList, Stop, join};
use plain_data::Items;
use std::alloc::{AllocError, Global};
use std::collections::HashMap;
use std::test::Fail;

/// Numbers pairs of states in the order in which they are asked, and remembers them, until it has numbered so many.
#[derive(Drop)]
struct Numbering {
    numbers: HashMap<(u32, u32), u32>,
    left: u32,
}

impl LeafRule for Numbering {
    ghost use Rattle.std.specs.Prelude.{◌≡◌, ◌%◌, ◌^◌, None, length, nat_eq, ◌&&◌, if◌then◌else◌, slice_index};
    ghost use Rattle.std.specs.Option.{option_map};
    ghost use Rattle.std.specs.HashMap.{get};

    ghost answers = { λ rule states. if nat_eq (length states) 2
        then option_map (λ number. number % 2 ^ 31) (get (λ one other. nat_eq one.0 other.0 && nat_eq one.1 other.1) rule.numbers
        (slice_index states 0, slice_index states 1))
        else None };

    ghost may_ask = { λ rule states. length states ≡ 2 };

    fn leaf(&mut self, states: &StateList) -> Result<u32, AllocError> {
        let states = states.as_slice();
        let pair = (states[0], states[1]);
        if let Some(number) = self.numbers.get(&pair) {
            return Ok(*number % 0x8000_0000);
        }
        if self.left == 0 {
            return Err(AllocError);
        }
        self.left -= 1;
        let number = self.left;
        self.numbers.insert(pair, number)?;
        Ok(number % 0x8000_0000)
    }
}

/// The functions of track 0 and of track 1.
fn pair(shelf: &mut Shelf) -> Result<(NodeRef, NodeRef), Full>
    ensures first { IfOk result (λ made. IsValid shelf.new made.0) }
    ensures second { IfOk result (λ made. IsValid shelf.new made.1) }
{
    let first = decision(shelf, 0)?;
    let second = decision(shelf, 1)?;
    Ok((first, second))
}

/// The numbers of the pairs that tracks 0 and 1 give where none, track 0, track 1 and both are set.
fn remembered(rule: &Numbering) -> [Option<u32>; 4] {
    [(0, 0), (1, 0), (0, 1), (1, 1)].map(|pair| rule.numbers.get(&pair).copied())
}

/// What a join of both roots by the rule gives; `None` where the rule refuses.
fn numbered(
    alloc: Global,
    shelf: &mut Shelf,
    roots: &RefList,
    rule: &mut Numbering,
) -> Result<Option<[u32; 4]>, Fail>
    requires valid { All (IsValid shelf.old) roots.now }
    requires two { length roots.now ≡ 2 }
    ensures { (r : NodeRef) → IsValid shelf.old r → IsValid shelf.new r }
{
    match join(alloc, shelf, roots, None, rule) {
        Ok(made) => Ok(Some(states(alloc, shelf, made)?)),
        Err(Stop::NoMemory) => Ok(None),
        Err(stop) => Err(stop.into()),
    }
}

/// Whether each number is the one given, and the one remembered before where there was one.
fn agree(before: [Option<u32>; 4], after: [Option<u32>; 4], given: [u32; 4]) -> bool {
    for label in 0..4usize {
        if after[label] != Some(given[label])
            || before[label].is_some() && before[label] != after[label]
        {
            return false;
        }
    }
    true
}

#[test]
fn a_refusing_rule_keeps_its_answers(rt: HostRuntime) -> Result<(), Fail> {
    let alloc = rt.alloc();
    let mut shelf = Shelf::open(alloc, 100)?;
    let (first, second) = pair(&mut shelf)?;
    let roots = Items::from_slice(alloc, &[first, second])?;
    let mut rule = Numbering {
        numbers: HashMap::new(alloc),
        left: 3,
    };
    assert!(rt; numbered(alloc, &mut shelf, &roots, &mut rule)? == None);
    assert!(rt; shelf.count() < 5 && rule.numbers.len() == 3);
    let before = remembered(&rule);
    rule.left = 10;
    let given = numbered(alloc, &mut shelf, &roots, &mut rule)?.ok_or("refused")?;
    assert!(rt; rule.left == 9 && agree(before, remembered(&rule), given));
    Ok(())
}
