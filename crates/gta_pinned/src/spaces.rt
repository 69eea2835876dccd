//! The spaces in which the nodes of a tree stand.

ghost use Rattle.std.specs.Prelude.{◌≡◌, ◌<◌, IfSome, IfOk, vec_len};
ghost use Rattle.gta_theory.specs.Guides.{IsGuide};
ghost use Rattle.ws2s_core.specs.LabelTrees.{IsTree};
ghost use Rattle.gta_core.specs.Accepting.{with_space, AreSpacesFrom};

use bdd_walk::NoMemory;
use std::alloc::Global;
use ws2s_core::{Guide, TreeNode};

/// The space of each node: children have those of their parents' children.
pub(crate) fn spaces_of(alloc: Global, g: &Guide, nodes: &[TreeNode]) -> Result<Vec<u32>, NoMemory>
    requires guide { IsGuide g.now }
    requires tree { IsTree nodes.now }
    ensures { IfOk result (λ spaces. AreSpacesFrom g.now nodes.now 0 spaces.items) }
{
    let mut spaces = vec![in alloc; 0; nodes.len()]?;
    for k in (0..nodes.len()).rev() {
        let node = &nodes[k];
        let (left, right) = g.children(spaces[k]).unwrap_or((0, 0));
        put(&mut spaces, node.left, left);
        put(&mut spaces, node.right, right);
    }
    Ok(spaces)
}

/// Gives a child its space.
fn put(spaces: &mut Vec<u32>, child: Option<u32>, space: u32)
    requires { IfSome child (λ j. j < vec_len spaces.old) }
    ensures { spaces.new.items ≡ with_space spaces.old.items child space }
{
    if let Some(j) = child {
        spaces[j as usize] = space;
    }
}
