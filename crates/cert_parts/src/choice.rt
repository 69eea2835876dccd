//! The state of an atom after two states of its children, by which of its tracks are set.

ghost use Rattle.std.specs.Prelude.{◌≡◌};
ghost use Rattle.cert_theory.specs.Atoms.{sub_number, sub_state, single_number, single_state, root_number, root_state};
ghost use Rattle.cert_theory.specs.Atoms.{succ_number, succ_state};
ghost use Rattle.cert_theory.specs.Sections.{atom_states};
ghost use Rattle.ws2s_theory.specs.Atoms.{sub_step, single_step, root_step, succ_step};
ghost use Rattle.cert_parts.specs.Atoms.{first_track, second_track, choice_by, choice_of};

use ws2s_core::Node;

/// A state for each way to set two tracks.
#[derive(Clone, Copy, Debug)]
pub(crate) struct Choice {
    pub(crate) neither: u32,
    pub(crate) second: u32,
    pub(crate) first: u32,
    pub(crate) both: u32,
}

/// The same state for each.
fn same(state: u32) -> Choice
    ensures { result ≡ choice_by (λ a b. state) }
{
    Choice {
        neither: state,
        second: state,
        first: state,
        both: state,
    }
}

fn sub_choice(p: u32, q: u32) -> Choice
    ensures { result ≡ choice_by (λ a b. sub_number (sub_step (sub_state p) (sub_state q) a b)) }
{
    if p == 0 && q == 0 {
        Choice {
            neither: 0,
            second: 0,
            first: 1,
            both: 0,
        }
    } else {
        same(1)
    }
}

fn single_choice(p: u32, q: u32) -> Choice
    ensures { result ≡ choice_by (λ a b. single_number (single_step (single_state p) (single_state q) a)) }
{
    if p == 0 && q == 0 {
        Choice {
            neither: 0,
            second: 0,
            first: 1,
            both: 1,
        }
    } else if p < 2 && q < 2 && p != q {
        Choice {
            neither: 1,
            second: 1,
            first: 2,
            both: 2,
        }
    } else {
        same(2)
    }
}

fn root_choice(p: u32, q: u32) -> Choice
    ensures { result ≡ choice_by (λ a b. root_number (root_step (root_state p) (root_state q) a)) }
{
    if p == 0 && q == 0 {
        Choice {
            neither: 0,
            second: 0,
            first: 1,
            both: 1,
        }
    } else {
        same(2)
    }
}

/// After a state on the side where the child has to be, and one on the other side, which has nothing.
fn succ_alone(p: u32) -> Choice
    ensures { result ≡ choice_by (λ a b. succ_number (succ_step (succ_state p) (succ_state 0) a b)) }
{
    if p == 0 {
        Choice {
            neither: 0,
            second: 1,
            first: 3,
            both: 3,
        }
    } else if p == 1 {
        Choice {
            neither: 3,
            second: 3,
            first: 2,
            both: 3,
        }
    } else if p == 2 {
        Choice {
            neither: 2,
            second: 3,
            first: 3,
            both: 3,
        }
    } else {
        same(3)
    }
}

fn succ_choice(p: u32, q: u32) -> Choice
    ensures { result ≡ choice_by (λ a b. succ_number (succ_step (succ_state p) (succ_state q) a b)) }
{
    if q == 0 {
        succ_alone(p)
    } else if p == 0 && q == 2 {
        Choice {
            neither: 2,
            second: 3,
            first: 3,
            both: 3,
        }
    } else {
        same(3)
    }
}

/// The state of an atom after two states of its children; 0 for another form.
pub(crate) fn choice_at(atom: Node, p: u32, q: u32) -> Choice
    ensures { result ≡ choice_of atom p q }
{
    match atom {
        Node::Sub(_, _) => sub_choice(p, q),
        Node::Single(_) => single_choice(p, q),
        Node::Succ0(_, _) => succ_choice(p, q),
        Node::Succ1(_, _) => succ_choice(q, p),
        Node::Root(_) => root_choice(p, q),
        Node::And(_, _) => same(0),
        Node::Not(_) => same(0),
        Node::Ex2(_, _) => same(0),
    }
}

/// The tracks of an atom, of which there may be one alone.
pub(crate) fn tracks(atom: Node) -> (u32, u32)
    ensures { result ≡ (first_track atom, second_track atom) }
{
    match atom {
        Node::Sub(x, y) => (x.0, y.0),
        Node::Single(x) => (x.0, x.0),
        Node::Succ0(x, y) => (x.0, y.0),
        Node::Succ1(x, y) => (x.0, y.0),
        Node::Root(x) => (x.0, x.0),
        Node::And(_, _) => (0, 0),
        Node::Not(_) => (0, 0),
        Node::Ex2(_, _) => (0, 0),
    }
}

/// How many states an atom's automaton has; 0 for another form.
pub(crate) fn states(atom: Node) -> u32
    ensures { result ≡ atom_states atom }
{
    match atom {
        Node::Sub(_, _) => 2,
        Node::Single(_) => 3,
        Node::Succ0(_, _) => 4,
        Node::Succ1(_, _) => 4,
        Node::Root(_) => 3,
        Node::And(_, _) => 0,
        Node::Not(_) => 0,
        Node::Ex2(_, _) => 0,
    }
}
