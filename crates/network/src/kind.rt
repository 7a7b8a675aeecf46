// The kinds of node.

// What a node is, by the places of its links: those that enter first, then those that leave, each
// in number order. Of a merge `first` is the first leg.
#[derive(Clone, Copy)]
pub enum NodeKind {
    Entrance {
        to: usize,
    },
    Exit {
        from: usize,
    },
    Mainline {
        from: usize,
        to: usize,
    },
    Merge {
        first: usize,
        second: usize,
        to: usize,
    },
    Diverge {
        from: usize,
        first: usize,
        second: usize,
    },
}
