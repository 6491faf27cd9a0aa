// What a net tells under an input of the run that draws the same.
use c_core::{DataModel, IntType, convert};
use c_meaning::Draw;
use circuits::{Bits, value_of_bit};
use std::alloc::Global;
use wv_base::{OutOfMemory, Seq};
use wv_seek::Reach;

/// Whether the run hits, and what it draws. Of the inputs that stand for one run one is plain: at the sites at which
/// the run isn't all of its digits are 0.
#[derive(Drop)]
pub struct Told {
    pub hits: bool,
    pub draws: Seq<Draw>,
    pub is_plain: bool,
}

fn number(values: &[bool], model: DataModel, ty: IntType, bits: &Bits) -> i128 {
    let mut number: i128 = 0;
    for bit in bits.bits.as_slice().iter().rev() {
        let digit = i128::from(value_of_bit(values, *bit));
        number = number.wrapping_mul(2).wrapping_add(digit);
    }
    convert(model, ty, number)
}

/// What the net says of the run that these inputs stand for.
pub fn told_by_net(
    alloc: Global,
    model: DataModel,
    reach: &Reach,
    inputs: &[bool],
) -> Result<Told, OutOfMemory> {
    let values = reach.net.values(alloc, inputs)?;
    let mut draws = Seq::new(alloc);
    let mut is_plain = true;
    for site in reach.sites.as_slice() {
        let value = number(&values, model, site.ty, &site.bits);
        if value_of_bit(&values, site.live) {
            draws.push(Draw {
                spot: site.spot,
                ty: site.ty,
                value,
                from: site.from,
            })?;
        } else if value != 0 {
            is_plain = false;
        }
    }
    Ok(Told {
        hits: value_of_bit(&values, reach.reach),
        draws,
        is_plain,
    })
}
