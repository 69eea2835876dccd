//! How many nodes a formula has, counted without memory and without deep recursion.

ghost use Rattle.std.specs.Prelude.{◌≡◌, ◌+◌, ◌<◌, ◌≤◌, min, max, ℕ, IfSome, IfNone};
ghost use Rattle.ws2s_core.specs.Sizes.{node_count, strahler_order, IsHalfCounted};

use crate::formula::Formula;

impl Formula {
    /// The number of nodes, or 18,446,744,073,709,551,615 where there are more.
    ///
    /// Takes no memory, and a stack of at most 64 levels, however deep the formula is: of the two halves of a
    /// conjunction the one of the smaller order is counted by a call, and the other one by going on. A formula of a
    /// higher order has more nodes than are counted. Where one half of most conjunctions is small, the time is linear
    /// in the number n of nodes; for a full tree it is about n ^ 1.6.
    pub fn size(&self) -> u64
        ensures { result ≡ min (node_count self.now) 18446744073709551615 }
    {
        match self.size_to_order(63) {
            Some(size) => size,
            None => u64::MAX,
        }
    }

    /// The size of a formula whose order is at most this.
    #[cycle(counting)]
    fn size_to_order(&self, order: u32) -> Option<u64>
        ensures some { IfSome result (λ size. size ≡ min (node_count self.now) 18446744073709551615) }
        ensures none { IfNone result (order < strahler_order self.now) }
    {
        let mut formula = self;
        let mut counted = 0u64;
        loop {
            counted = counted.saturating_add(1);
            match formula {
                Formula::And(left, right) => {
                    let (size, other) = Formula::simpler_half(left.get(), right.get(), order)?;
                    counted = counted.saturating_add(size);
                    formula = other;
                }
                Formula::Not(inner) => formula = inner.get(),
                Formula::Ex2(_, inner) => formula = inner.get(),
                _ => return Some(counted),
            }
        }
    }

    /// The size of one of the two whose order is below this, and the other one.
    #[cycle(counting)]
    fn simpler_half<'a>(
        left: &'a Formula,
        right: &'a Formula,
        order: u32,
    ) -> Option<(u64, &'a Formula)>
        ensures some { IfSome result (λ found. IsHalfCounted left.now right.now found.0 found.1.now) }
        ensures none_left { IfNone result (order ≤ strahler_order left.now) }
        ensures none_right { IfNone result (order ≤ strahler_order right.now) }
    {
        for lower in 0..order {
            if let Some(size) = left.size_to_order(lower) {
                return Some((size, right));
            }
            if let Some(size) = right.size_to_order(lower) {
                return Some((size, left));
            }
        }
        None
    }
}
