// The links at a node, and the kind that they make it.
ghost use Rattle.std.specs.Prelude.{◌≡◌, ◌+◌, ◌^◌, ◌<◌, length, nat_eq};
ghost use Rattle.network.specs.Net.{places};
ghost use Rattle.network.specs.Scans.{IsFew, IsOrNone, end_of, few_count, link_in, links_net, more_of};

use crate::kind::NodeKind;
use crate::link::Link;

// The places of the links that were found, in order: of more than two the first two, and how many.
#[derive(Clone, Copy)]
pub enum Few {
    Zero,
    One(usize),
    Two(usize, usize),
    More {
        first: usize,
        second: usize,
        count: usize,
    },
}

impl Few {
    // One more link was found.
    fn and(self, i: usize) -> Few
        requires { few_count self + 1 < 2 ^ 64 }
        ensures { result ≡ more_of self i }
    {
        match self {
            Few::Zero => Few::One(i),
            Few::One(first) => Few::Two(first, i),
            Few::Two(first, second) => Few::More {
                first,
                second,
                count: 3,
            },
            Few::More {
                first,
                second,
                count,
            } => Few::More {
                first,
                second,
                count: count + 1,
            },
        }
    }
}

// The node where a link begins, or else that where it ends. A flag tells which: a closure that reads
// one would ask two clauses more, that it may be called and what it reads, for two calls.
fn end_of(link: &Link, leaves: bool) -> u8
    ensures { result ≡ end_of leaves link.now }
{
    if leaves { link.from } else { link.to }
}

// The links that leave a node, or else those that enter it.
pub fn scan(links: &[Link], n: usize, leaves: bool) -> Few
    ensures { IsFew result (places (λ i. nat_eq (end_of leaves (link_in links.now i)) n) (length links.now)) }
{
    let mut few = Few::Zero;
    for (i, link) in links.iter().enumerate() {
        if usize::from(end_of(link, leaves)) == n {
            few = few.and(i);
        }
    }
    few
}

// The kind of a node by how many links enter and leave it, where it is of one.
pub fn kind_of(links: &[Link], n: usize) -> Option<NodeKind>
    ensures { IsOrNone (links_net links.now) n result }
{
    match (scan(links, n, false), scan(links, n, true)) {
        (Few::Zero, Few::One(to)) => Some(NodeKind::Entrance { to }),
        (Few::One(from), Few::Zero) => Some(NodeKind::Exit { from }),
        (Few::One(from), Few::One(to)) => Some(NodeKind::Mainline { from, to }),
        (Few::Two(first, second), Few::One(to)) => Some(NodeKind::Merge { first, second, to }),
        (Few::One(from), Few::Two(first, second)) => Some(NodeKind::Diverge {
            from,
            first,
            second,
        }),
        _ => None,
    }
}
