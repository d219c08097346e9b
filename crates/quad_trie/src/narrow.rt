//! Going down past nodes that have all their rows in one quarter.
ghost use Rattle.std.specs.Prelude.{◌≡◌, ◌%◌, true, length, IfSome};
ghost use Rattle.bit_trie.specs.Tries.{is_bare};
ghost use Rattle.bit_trie.specs.Walks.{Narrows};
ghost use Rattle.quad_trie.specs.Nodes.{seen};
ghost use Rattle.quad_trie.specs.Quarters.{is_lone};

use crate::node::{Node, Quad};
use zorder::{Name, child};

fn is_bare(node: &Node) -> bool
    ensures { result ≡ is_bare (seen node.now) }
{
    match node {
        Node::Leaf(bucket) => bucket.count() == 0,
        Node::Inner(_) => false,
    }
}

// Returns the two bits of the only quarter that is not a leaf without rows, if there is exactly one.
fn lone(quad: &Quad) -> Option<(bool, bool)>
    ensures { IfSome result (λ bits. is_lone quad.now bits.0 bits.1 ≡ true) }
{
    let zero_zero = is_bare(&quad.zero_zero);
    let zero_one = is_bare(&quad.zero_one);
    let one_zero = is_bare(&quad.one_zero);
    let one_one = is_bare(&quad.one_one);
    if zero_zero && zero_one && one_zero {
        Some((true, true))
    } else if zero_zero && zero_one && one_one {
        Some((true, false))
    } else if zero_zero && one_zero && one_one {
        Some((false, true))
    } else if zero_one && one_zero && one_one {
        Some((false, false))
    } else {
        None
    }
}

/// Goes down as long as exactly three quarters are leaves without rows.
pub(crate) fn narrowed(name: Name, node: &Node) -> (Name, &Node)
    ensures narrows { Narrows name result.0 (seen node.now) (seen result.1.now) }
    ensures even { length result.0 % 2 ≡ length name % 2 }
{
    let Node::Inner(quad) = node else {
        return (name, node);
    };
    if name.len() > 62 {
        return (name, node);
    }
    let Some((high, low)) = lone(quad) else {
        return (name, node);
    };
    let half = child(&name, high);
    narrowed(child(&half, low), quad.quarter(high, low))
}
