// Nodes of a net that are found again by their arguments.
ghost use Rattle.std.specs.Prelude.{◌≡◌, ◌≤◌, ◌^◌, IfSome, IsTrue, Some, length, slice_get};
ghost use Rattle.circuits.specs.declared.net.NetNode.TheVariants.{And};

use crate::slots::{REACH, Slots};
use crate::{Bit, NetNode};
use std::alloc::Global;

/// Numbers of and-nodes by their arguments. A hint: whoever finds a number looks at the node itself.
#[derive(Drop)]
pub struct Shared {
    slots: Slots,
}

impl Shared {
    /// No node is found.
    pub fn new(alloc: Global) -> Shared {
        Shared {
            slots: Slots::new(alloc),
        }
    }

    /// A node with these arguments.
    pub fn find(&self, nodes: &[NetNode], a: Bit, b: Bit) -> Option<u32>
        ensures { IfSome result (λ node. Some (And a b) ≡ slice_get nodes.now node) }
    {
        let hash = hash_of(a, b);
        for step in 0..REACH {
            let node = self.slots.number(hash, step);
            if node == 0 {
                break;
            }
            if is_and(nodes, node, a, b) {
                return Some(node);
            }
        }
        None
    }

    /// Lets a new and-node be found, the last of all. Where memory runs out, or no slot is free, it isn't found.
    pub fn add(&mut self, nodes: &[NetNode], node: u32, a: Bit, b: Bit)
        requires room { length nodes.now ≤ 2 ^ 31 }
    {
        if self.slots.spread(nodes.len()) {
            self.add_all(nodes);
        } else {
            self.slots.put(hash_of(a, b), node);
        }
    }

    // all and-nodes, in slots that are free
    fn add_all(&mut self, nodes: &[NetNode])
        requires room { length nodes.now ≤ 2 ^ 31 }
    {
        for at in 0..nodes.len() {
            if let NetNode::And(a, b) = nodes[at] {
                self.slots.put(hash_of(a, b), at as u32);
            }
        }
    }
}

// arguments that differ little get slots that lie far apart
fn hash_of(a: Bit, b: Bit) -> u64 {
    let left = (2 * u64::from(a.node) + u64::from(a.negated)).wrapping_mul(0xC13F_A9A9_02A6_328F);
    let right = (2 * u64::from(b.node) + u64::from(b.negated)).wrapping_mul(0x91E1_0DA5_C79E_7B1D);
    left.wrapping_add(right)
}

// whether this node has these arguments
fn is_and(nodes: &[NetNode], node: u32, a: Bit, b: Bit) -> bool
    ensures { IsTrue result → Some (And a b) ≡ slice_get nodes.now node }
{
    match nodes.get(node as usize) {
        Some(NetNode::And(left, right)) => *left == a && *right == b,
        _ => false,
    }
}
