// What a net tells under an input of the havoc run that draws the same.
use crate::cases::Judged;
use c_core::{DataModel, IntType, convert};
use c_meaning::Draw;
use circuits::{Bit, Bits, value_of_bit};
use std::alloc::Global;
use sym_state::DrawSite;
use wv_base::{OutOfMemory, Seq};

/// The number from 1 of the obligation that fails, if one does, and what is drawn.
#[derive(Drop)]
pub struct Told {
    pub failed: Option<usize>,
    pub draws: Seq<Draw>,
}

// No two failing bits are true under one input.
fn failed(values: &[bool], failing: &[Bit]) -> Option<usize> {
    for (i, bit) in failing.iter().enumerate() {
        if value_of_bit(values, *bit) {
            return Some(i.saturating_add(1));
        }
    }
    None
}

fn number(values: &[bool], model: DataModel, ty: IntType, bits: &Bits) -> i128 {
    let mut number: i128 = 0;
    for bit in bits.bits.as_slice().iter().rev() {
        let digit = i128::from(value_of_bit(values, *bit));
        number = number.wrapping_mul(2).wrapping_add(digit);
    }
    convert(model, ty, number)
}

fn draws(
    alloc: Global,
    model: DataModel,
    values: &[bool],
    sites: &[DrawSite],
) -> Result<Seq<Draw>, OutOfMemory> {
    let mut draws = Seq::new(alloc);
    for site in sites {
        if value_of_bit(values, site.live) {
            draws.push(Draw {
                spot: site.spot,
                ty: site.ty,
                value: number(values, model, site.ty, &site.bits),
                from: site.from,
            })?;
        }
    }
    Ok(draws)
}

/// What the net says of the run that these inputs stand for.
pub fn told_by_net(alloc: Global, judged: &Judged, inputs: &[bool]) -> Result<Told, OutOfMemory> {
    let all = &judged.all;
    let values = all.net.values(alloc, inputs)?;
    let sites = all.sites.as_slice();
    Ok(Told {
        failed: failed(&values, all.failing.as_slice()),
        draws: draws(alloc, judged.program.model, &values, sites)?,
    })
}
