// The nodes that a bit reaches.
ghost use Rattle.std.specs.Prelude.{◌≡◌, ◌<◌, ◌^◌, false, length, replicate, IfOk};
ghost use Rattle.circuits.specs.Net.{IsIn};
ghost use Rattle.clauses.specs.Tseitin.{Flags};
ghost use Rattle.clauses.specs.Marks.{marked, ArgumentsIn};

use circuits::{Bit, Net, NetNode};
use std::alloc::Global;
use wv_base::OutOfMemory;

// n flags that are not set
fn unflagged(alloc: Global, n: usize) -> Result<Vec<bool>, OutOfMemory>
    ensures { IfOk result (λ r. r.items ≡ replicate n false) }
{
    let mut out = Vec::new(alloc);
    for i in 0..n {
        out.push(false)?;
    }
    Ok(out)
}

// flags the arguments of an and-node
fn mark_arguments(flags: &mut [bool], node: NetNode)
    requires { ArgumentsIn (length flags.old) node }
    ensures { flags.new ≡ marked node flags.old }
{
    match node {
        NetNode::Constant(_) | NetNode::Input(_) => {}
        NetNode::And(a, b) => {
            flags[a.node as usize] = true;
            flags[b.node as usize] = true;
        }
    }
}

/// Which nodes the bit reaches: from the last node down, each flagged and-node flags its arguments, which stand before
/// it.
pub fn reached(alloc: Global, net: &Net, bit: Bit) -> Result<Vec<bool>, OutOfMemory>
    requires bit_in { IsIn net.now bit }
    requires room { length net.now < 2 ^ 28 }
    ensures { IfOk result (λ r. Flags net.now bit r.items) }
{
    let many = net.nodes() as usize;
    let mut flags = unflagged(alloc, many)?;
    flags[bit.node as usize] = true;
    for i in 0..many {
        let at = many - 1 - i;
        if flags[at] {
            let node = net.node(at as u32);
            mark_arguments(&mut flags, node);
        }
    }
    Ok(flags)
}
