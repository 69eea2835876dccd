//! The collector of a shelf.

ghost use Rattle.std.specs.Prelude.{◌≡◌};
ghost use Rattle.bdd_nodes.specs.Shelf.{IsShelf, count_of, limit_of};
ghost use Rattle.bdd_nodes.specs.Changes.{MovesRoots, CountsHeld};

use crate::collecting;
use crate::shelf::Shelf;

impl Shelf {
    /// Keeps the nodes under registered roots alone, and moves them. References that were kept elsewhere are no longer
    /// valid; `root` has the roots as they stand now. Takes no memory.
    pub fn collect(&mut self)
        ensures roots { MovesRoots self.old self.new }
        ensures count { CountsHeld self.old (count_of self.new) }
        ensures limit { limit_of self.new ≡ limit_of self.old }
        ensures shelf { IsShelf self.new }
    {
        let marks = self.index.chain.as_mut_slice();
        collecting::clear(marks);
        self.roots.mark(marks);
        collecting::mark_sides(&self.nodes, marks);
        let count = collecting::move_nodes(&mut self.nodes, marks);
        self.roots.move_all(marks);
        self.nodes.truncate(count);
        let buckets = self.index.buckets.len() as u32;
        self.index.rebuild(&self.nodes, buckets);
    }
}
