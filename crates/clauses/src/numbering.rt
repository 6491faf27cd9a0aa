// The variables of nodes.
ghost use Rattle.std.specs.Prelude.{◌≡◌, ◌<◌, ◌^◌, length, IfOk};
ghost use Rattle.clauses.specs.Marks.{Numbered};

use circuits::{Net, NetNode};
use std::alloc::Global;
use wv_base::OutOfMemory;

/// The variable of each node, and how many variables there are.
#[derive(Drop)]
pub struct Numbering {
    pub numbers: Vec<u32>,
    pub variables: u32,
}

/// Numbers the nodes that have a variable.
pub fn number_nodes(alloc: Global, net: &Net, flags: &[bool]) -> Result<Numbering, OutOfMemory>
    requires same { length flags.now ≡ length net.now }
    requires room { length net.now < 2 ^ 28 }
    ensures { IfOk result (λ r. Numbered flags.now net.now r.numbers.items (length net.now) r.variables) }
{
    let _ = net.nodes();
    let first = net.inputs() as u32 + 1;
    let mut variables = first;
    let mut numbers = Vec::new(alloc);
    for at in 0..flags.len() {
        let number = match net.node(at as u32) {
            NetNode::Constant(_) => first,
            NetNode::Input(k) => k + 1,
            NetNode::And(_, _) => {
                if flags[at] {
                    variables += 1;
                }
                variables
            }
        };
        numbers.push(number)?;
    }
    Ok(Numbering { numbers, variables })
}
