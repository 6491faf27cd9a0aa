// What is known wherever some bits are true: the bits, the orders among them, and the equalities that these give.
ghost use Rattle.std.specs.Prelude.{◌&&◌, IfOk};
ghost use Rattle.circuits.specs.Net.{holds, IsIn, IsNet};
ghost use Rattle.circuits.specs.Words.{AreTrue, bits_of};
ghost use Rattle.circuits.specs.Facts.{AllFollow, Condition};
ghost use Rattle.circuits.specs.Inequalities.{IsGiven};

use crate::hints::Hints;
use crate::inequalities::{Equality, Known, equalities, known_orders};
use crate::parts::{assumed, taken_apart};
use crate::{Bit, NetNode};
use wv_base::OutOfMemory;

/// Bits that are true, orders and equalities that follow.
#[derive(Drop)]
pub struct Given {
    pub bits: Vec<Bit>,
    pub orders: Vec<Known>,
    pub equalities: Vec<Equality>,
    /// without it there are no orders, and no equalities
    pub has_orders: bool,
}

// what follows from bits
fn given_by(
    nodes: &[NetNode],
    hints: &Hints,
    bits: Vec<Bit>,
    has_orders: bool,
) -> Result<Given, OutOfMemory>
    requires net { IsNet nodes.now }
    requires hints { AreTrue nodes.now hints.now }
    ensures { IfOk result (λ r. (here : Condition) → AllFollow nodes.now here bits.items
        → IsGiven nodes.now (bits_of hints.now.words.list.items) here r) }
{
    let mut orders = Vec::new(hints.alloc);
    if has_orders {
        orders = known_orders(nodes, hints, &bits)?;
    }
    let equalities = equalities(hints.alloc, &orders)?;
    Ok(Given {
        bits,
        orders,
        equalities,
        has_orders,
    })
}

/// What is known wherever a bit is true, with orders or without them.
pub fn given_at(
    nodes: &[NetNode],
    hints: &Hints,
    live: Bit,
    has_orders: bool,
) -> Result<Given, OutOfMemory>
    requires net { IsNet nodes.now }
    requires hints { AreTrue nodes.now hints.now }
    requires live_in { IsIn nodes.now live }
    ensures { IfOk result
        (IsGiven nodes.now (bits_of hints.now.words.list.items) (λ v. holds v nodes.now live)) }
{
    let mut known = Vec::new(hints.alloc);
    known.push(live)?;
    let bits = taken_apart(nodes, hints, known, 0)?;
    given_by(nodes, hints, bits, has_orders)
}

/// What is known where a bit is true besides.
pub fn given_with(
    nodes: &[NetNode],
    hints: &Hints,
    given: &Given,
    bit: Bit,
) -> Result<Given, OutOfMemory>
    requires net { IsNet nodes.now }
    requires hints { AreTrue nodes.now hints.now }
    requires bit_in { IsIn nodes.now bit }
    ensures { IfOk result (λ r. (here : Condition)
        → IsGiven nodes.now (bits_of hints.now.words.list.items) here given.now
        → IsGiven nodes.now (bits_of hints.now.words.list.items) (λ v. here v && holds v nodes.now bit) r) }
{
    let bits = assumed(hints.alloc, nodes, hints, &given.bits, bit)?;
    given_by(nodes, hints, bits, given.has_orders)
}
