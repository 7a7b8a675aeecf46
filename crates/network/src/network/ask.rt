// What a network tells.
ghost use Rattle.std.specs.Prelude.{◌≡◌, ℕ, ◌<◌, ◌≤◌, true, false, Some};
ghost use Rattle.network.specs.Net.{next as next_of, Entrance as EntranceOf, Exit as ExitOf, Walk};
ghost use Rattle.network.specs.Layouts.{kind_at, IsKind, Inside};
ghost use Rattle.network.specs.Nets.{net_of, Found};
ghost use Rattle.network.specs.Scans.{IsOrNone};

use super::Network;
use crate::kind::NodeKind;
use crate::link::Link;

impl Network {
    // How many nodes there are.
    pub fn nodes(&self) -> usize
        ensures { result ≡ (net_of self.now).nodes }
    {
        self.layout.nodes
    }

    // How many links there are.
    pub fn links(&self) -> usize
        ensures { result ≡ (net_of self.now).links }
    {
        self.layout.count
    }

    // The link at a place, from 0. A place is a number with its bound required, here and below: a
    // type for it would need a bound that names the network, and so ask the same of each call.
    pub fn link(&self, i: usize) -> Link
        requires { i < (net_of self.now).links }
        ensures { result ≡ (net_of self.now).link i }
    {
        self.layout.links[i]
    }

    // How many may pass an end of a link in a step.
    pub fn capacity(&self, i: usize) -> u8
        requires { i < (net_of self.now).links }
        ensures { result ≡ ((net_of self.now).link i).capacity }
    {
        self.layout.links[i].capacity
    }

    // The free steps of a link.
    pub fn free(&self, i: usize) -> u8
        requires { i < (net_of self.now).links }
        ensures { result ≡ ((net_of self.now).link i).free }
    {
        self.layout.links[i].free
    }

    // The node where a link ends.
    pub fn end(&self, i: usize) -> u8
        requires { i < (net_of self.now).links }
        ensures { result ≡ ((net_of self.now).link i).to }
    {
        self.layout.links[i].to
    }

    // The kind of a node, with the places of its links.
    pub fn kind(&self, n: usize) -> NodeKind
        requires least { 1 ≤ n }
        requires most { n ≤ (net_of self.now).nodes }
        ensures told { kind_at self.now.layout n ≡ Some result }
        ensures is { IsKind (net_of self.now) n result }
        ensures inside { Inside (net_of self.now).links result }
    {
        self.layout.kinds[n].unwrap()
    }

    // The kind of a node, where there is such a node.
    pub(super) fn node(&self, n: usize) -> Option<NodeKind>
        ensures { IsOrNone (net_of self.now) n result }
    {
        if (1..=self.layout.nodes).contains(&n) {
            Some(self.kind(n))
        } else {
            None
        }
    }

    // The route row's link.
    pub(super) fn route(&self, n: usize, x: u8) -> Option<usize>
        ensures { result ≡ (net_of self.now).route n x }
    {
        let row = self.layout.routes.get(n)?;
        row.get(usize::from(x))?.map(usize::from)
    }

    // The link that a vehicle for the exit `x` takes after the link `i`.
    pub fn next(&self, i: usize, x: u8) -> Option<usize>
        requires { i < (net_of self.now).links }
        ensures { result ≡ next_of (net_of self.now) i x }
    {
        let n = usize::from(self.end(i));
        match self.kind(n) {
            NodeKind::Entrance { to }
            | NodeKind::Mainline { to, .. }
            | NodeKind::Merge { to, .. } => Some(to),
            NodeKind::Exit { .. } => None,
            NodeKind::Diverge { .. } => self.route(n, x),
        }
    }

    // The link of the entrance `e`, where `e` is one.
    pub fn entrance(&self, e: usize) -> Option<usize>
        ensures { Found result (EntranceOf (net_of self.now) e) }
    {
        match self.node(e)? {
            NodeKind::Entrance { to } => Some(to),
            _ => None,
        }
    }

    // The link of the exit `x`, where `x` is one.
    pub fn exit(&self, x: usize) -> Option<usize>
        ensures { Found result (ExitOf (net_of self.now) x) }
    {
        match self.node(x)? {
            NodeKind::Exit { from } => Some(from),
            _ => None,
        }
    }

    // Whether the walk for the exit `x` from the link `first` on ends there.
    pub fn served(&self, first: usize, x: u8) -> bool
        requires here { first < (net_of self.now).links }
        requires exit { (l : ℕ) × ExitOf (net_of self.now) x l }
        ensures yes { result ≡ true → (n : ℕ) × Walk (net_of self.now) x first n }
        ensures no { result ≡ false → (n : ℕ) → Walk (net_of self.now) x first n → ⊥ }
    {
        let mut i = first;
        while self.end(i) != x {
            // Not `let .. else`: tried, and the goal at its else has no name that stays.
            match self.next(i, x) {
                None => return false,
                Some(j) => i = j,
            }
        }
        true
    }
}
