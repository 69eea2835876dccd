//! Which spaces are children of positions' spaces.

ghost use Rattle.std.specs.Prelude.{◌≡◌, ◌<◌, ◌≤◌, true, length, vec_len, IfOk, OnOk, slice_set};
ghost use Rattle.gta_theory.specs.Guides.{IsGuide};
ghost use Rattle.ws2s_theory.specs.Merging.{IsChildTest};
ghost use Rattle.gta_atom.specs.Children.{is_marked, marked_test, test_of, waiting_after, NoneMarked};

use bdd_walk::NoMemory;
use std::alloc::Global;
use ws2s_core::Guide;

/// For each space whether it is the child by 0, and by 1, of some position's space.
#[derive(Debug, Drop)]
pub(crate) struct ChildTest {
    by_zero: Vec<bool>,
    by_one: Vec<bool>,
}

impl ChildTest {
    /// The test of a guide.
    pub(crate) fn new(alloc: Global, g: &Guide) -> Result<ChildTest, NoMemory>
        ensures { IfOk result (λ test. IsChildTest g.now (test_of test)) }
    {
        let many = g.spaces() as usize;
        let mut by_zero = vec![in alloc; false; many]?;
        let mut by_one = vec![in alloc; false; many]?;
        find(alloc, g, &mut by_zero, &mut by_one)?;
        Ok(ChildTest { by_zero, by_one })
    }

    /// Whether the space is a child by the letter.
    pub(crate) fn is_child(&self, letter: bool, space: u32) -> bool
        ensures { result ≡ test_of self.now letter space }
    {
        if letter {
            marked(&self.by_one, space)
        } else {
            marked(&self.by_zero, space)
        }
    }
}

fn marked(marks: &[bool], space: u32) -> bool
    ensures { result ≡ is_marked marks.now space }
{
    marks.get(space as usize).copied().unwrap_or(false)
}

/// Marks the children of all spaces that positions have.
fn find(
    alloc: Global,
    g: &Guide,
    by_zero: &mut Vec<bool>,
    by_one: &mut Vec<bool>,
) -> Result<(), NoMemory>
    requires zeros { vec_len by_zero.old ≡ length g.now }
    requires ones { vec_len by_one.old ≡ length g.now }
    requires none { NoneMarked by_zero.old.items by_one.old.items }
    ensures { OnOk result (IsChildTest g.now (marked_test by_zero.new.items by_one.new.items)) }
{
    let mut met = vec![in alloc; false; g.spaces() as usize]?;
    let mut waiting = Vec::new(alloc);
    meet(0, &mut met, &mut waiting)?;
    while let Some(space) = waiting.pop() {
        let (left, right) = g.children(space).unwrap_or((0, 0));
        by_zero[left as usize] = true;
        by_one[right as usize] = true;
        meet(left, &mut met, &mut waiting)?;
        meet(right, &mut met, &mut waiting)?;
    }
    Ok(())
}

/// A space that is met for the first time waits.
fn meet(space: u32, met: &mut Vec<bool>, waiting: &mut Vec<u32>) -> Result<(), NoMemory>
    requires { space < vec_len met.old }
    ensures met { OnOk result (met.new.items ≡ slice_set met.old.items space true) }
    ensures waiting { OnOk result (waiting.new.items ≡ waiting_after met.old.items waiting.old.items space) }
{
    let was_met = met[space as usize];
    met[space as usize] = true;
    if !was_met {
        waiting.push(space)?;
    }
    Ok(())
}
