//! The nodes for which rules and meters keep something.
ghost use Rattle.std.specs.Prelude.{◌≡◌, ℕ, ◌-◌, ◌↔◌, ◌&&◌, ◌==◌, Some, None, IsOk, IsTrue, cond};
ghost use Rattle.merge.specs.States.{inside, at_node};

/// How many nodes there are: they are numbered from 1. `network` has the same number: neither crate
/// uses the other, and a merge rule knows no network.
pub const NODES: usize = 32;

/// There is no node of that number.
#[derive(Clone, Copy, PartialEq, Eq, Debug)]
pub struct NoNode;

/// The place of a node in an array that has one for each, if there is such a node.
fn place(node: u16) -> Option<usize>
    ensures { result ≡ cond (inside node) (Some (node - 1)) None }
{
    let place = usize::from(node).checked_sub(1)?;
    (place < NODES).then_some(place)
}

/// A value for each node.
#[derive(Clone, Copy)]
pub(crate) struct PerNode<T> {
    at: [T; NODES],
}

impl<T: Copy> PerNode<T> {
    /// The same for every node.
    pub(crate) fn all(value: T) -> PerNode<T>
        ensures { (other : T) (n : ℕ) → at_node other result.at n ≡ cond (inside n) value other }
    {
        PerNode { at: [value; NODES] }
    }

    /// The node's value, and `other` if there is no such node.
    pub(crate) fn get_or(&self, node: u16, other: T) -> T
        ensures { result ≡ at_node other self.now.at node }
    {
        match place(node) {
            Some(i) => self.at[i],
            None => other,
        }
    }

    /// Gives a node a value; nothing changes if there is no such node.
    pub(crate) fn set(&mut self, node: u16, value: T) -> Result<(), NoNode>
        ensures took { IsOk result ↔ IsTrue (inside node) }
        ensures holds { (other : T) (n : ℕ) → at_node other self.new.at n ≡ cond (inside node && n == node) value (at_node other self.old.at n) }
    {
        let i = place(node).ok_or(NoNode)?;
        self.at[i] = value;
        Ok(())
    }
}
