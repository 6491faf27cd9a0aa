// What is known of a net from one round to the next: bits that no inputs make true.
ghost use Rattle.std.specs.Prelude.{◌≡◌, ◌<◌, ◌^◌, IfOk, IsTrue, length, slice_set, true};
ghost use Rattle.circuits.specs.Net.{IsIn};
ghost use Rattle.bit_answers.specs.Deciding.{IsNeverTrue};
ghost use Rattle.wv_weed.specs.Known.{AreNever, AreShared, flag_place};

use bit_answers::is_false;
use circuits::{Bit, Net};
use std::alloc::Global;
use wv_base::OutOfMemory;

/// A net, and a flag for each of its bits, set only where no inputs make the bit true.
#[derive(Drop)]
pub struct Known {
    pub net: Net,
    pub never: Vec<bool>,
}

/// Nothing is known, of the net of the constant alone.
pub fn nothing(alloc: Global) -> Result<Known, OutOfMemory>
    ensures { IfOk result (λ k. AreNever k.net k.never.items) }
{
    let net = Net::new(alloc)?;
    let never = vec![in alloc; false; 2]?;
    Ok(Known { net, never })
}

// how many nodes both nets have in common, from the first on
fn shared(one: &Net, other: &Net) -> u32
    requires room { length other.now < 2 ^ 28 }
    ensures { AreShared one.now other.now result }
{
    let many = other.nodes() as u32;
    for at in 0..many {
        if u64::from(at) == one.nodes() || one.node(at) != other.node(at) {
            return at;
        }
    }
    many
}

/// The flags for another net: what is known of the bits of the nodes that both nets have in common.
pub fn carried(alloc: Global, known: Known, net: &Net) -> Result<Vec<bool>, OutOfMemory>
    requires known { AreNever known.net known.never.items }
    requires room { length net.now < 2 ^ 28 }
    ensures { IfOk result (λ r. AreNever net.now r.items) }
{
    let Known {
        net: last,
        mut never,
    } = known;
    let many = net.nodes() as usize;
    let same = shared(&last, net) as usize;
    never.truncate(2 * same);
    let others = vec![in alloc; false; 2 * (many - same)]?;
    never.extend_from_slice(&others)?;
    Ok(never)
}

/// The place of a bit's flag.
pub fn place_of_flag(bit: Bit) -> usize
    ensures { result ≡ flag_place bit }
{
    let node = bit.node as usize;
    if bit.negated { 2 * node + 1 } else { 2 * node }
}

/// Whether a bit is known to be true under no inputs.
pub fn is_known(net: &Net, never: &[bool], bit: Bit) -> bool
    requires known { AreNever net.now never.now }
    requires bit_in { IsIn net.now bit }
    ensures { IsTrue result → IsNeverTrue net.now bit }
{
    is_false(net, bit) || never[place_of_flag(bit)]
}

/// Sets a flag.
pub fn raise_flag(flags: &mut Vec<bool>, at: usize)
    requires { at < length flags.old.items }
    ensures { flags.new.items ≡ slice_set flags.old.items at true }
{
    flags[at] = true;
}
