// Bits that tell which of two polynomials is less.
ghost use Rattle.std.specs.Prelude.{◌≡◌, ◌<◌, ◌≤◌, ◌^◌, List, [], IfSome, length};
ghost use Rattle.circuits.specs.declared.net.Bit.{Bit};
ghost use Rattle.circuits.specs.declared.net.NetNode.{NetNode};
ghost use Rattle.circuits.specs.Words.{AreOrders, IsOrderOf};

use crate::Bit;
use crate::slots::{REACH, Slots};
use polynomials::Polynomial;
use std::alloc::Global;

/// A bit that is true exactly where one polynomial is less than another, both modulo 2^width.
#[derive(Drop)]
pub struct Order {
    pub width: u32,
    pub lesser: Polynomial,
    pub greater: Polynomial,
    pub bit: Bit,
}

/// Such bits, each found again by its node.
#[derive(Drop)]
pub struct Orders {
    pub list: Vec<Order>,
    by_node: Slots,
}

// more bits than these aren't kept
const MOST_ORDERS: usize = 1 << 20;

impl Orders {
    /// Nothing was compared.
    pub fn new(alloc: Global) -> Orders
        ensures { result.list.items ≡ [] }
    {
        Orders {
            list: Vec::new(alloc),
            by_node: Slots::new(alloc),
        }
    }

    /// The place of a bit of this node, the first that was kept.
    pub fn of_node(&self, node: u32) -> Option<usize>
        ensures { IfSome result (λ at. at < length self.now.list.items) }
    {
        let hash = hash_of_node(node);
        for step in 0..REACH {
            let number = self.by_node.number(hash, step) as usize;
            if number == 0 || number > self.list.len() {
                break;
            }
            if self.list[number - 1].bit.node == node {
                return Some(number - 1);
            }
        }
        None
    }

    // lets the last bit be found
    fn put_last(&mut self)
        requires { length self.old.list.items ≤ 2 ^ 20 }
        ensures { self.new.list ≡ self.old.list }
    {
        let count = self.list.len();
        let from = if self.by_node.spread(count) {
            0
        } else {
            count.saturating_sub(1)
        };
        for at in from..count {
            let hash = hash_of_node(self.list[at].bit.node);
            self.by_node.put(hash, at as u32 + 1);
        }
    }

    /// Keeps such a bit, where memory allows it.
    pub fn add(&mut self, width: u32, lesser: Polynomial, greater: Polynomial, bit: Bit)
        ensures { (net : List NetNode) (words : List (List Bit)) → AreOrders net words self.old.list.items
            → IsOrderOf net words width lesser greater bit → AreOrders net words self.new.list.items }
    {
        let order = Order {
            width,
            lesser,
            greater,
            bit,
        };
        if self.list.len() < MOST_ORDERS && self.list.push(order).is_ok() {
            self.put_last();
        }
    }
}

fn hash_of_node(node: u32) -> u64 {
    u64::from(node).wrapping_mul(0x9e37_79b9_7f4a_7c15)
}
