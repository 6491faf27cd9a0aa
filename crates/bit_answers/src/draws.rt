// The draws of the run that inputs of the net tell.
ghost use Rattle.std.specs.Prelude.{◌≡◌, ℕ, Bool, ◌≤◌, ◌<◌, ◌^◌, List, IfOk, length};
ghost use Rattle.std.specs.List.{All};
ghost use Rattle.c_core.specs.View.{program_view};
ghost use Rattle.circuits.specs.declared.net.NetNode.{NetNode};
ghost use Rattle.circuits.specs.Net.{values_of};
ghost use Rattle.circuits.specs.Numbers.{digit, number};
ghost use Rattle.sym_state.specs.Standing.{draw_at, draws_at};
ghost use Rattle.bit_answers.specs.Deciding.{inputs_of, IsWide};

use c_core::{Program, convert};
use c_meaning::Draw;
use circuits::{Bit, Net, value_of_bit};
use std::alloc::Global;
use sym_state::DrawSite;
use wv_base::{OutOfMemory, Seq};

fn digit_of(on: bool) -> u64
    ensures { result ≡ digit on }
{
    if on { 1 } else { 0 }
}

// the number that the bits count, of the values of all nodes
fn number_of(values: &[bool], bits: &[Bit]) -> u64
    requires few { length bits.now ≤ 64 }
    ensures below { result < 2 ^ length bits.now }
    ensures is { (v : ℕ → Bool) (net : List NetNode) → values.now ≡ values_of v net → result ≡ number v net bits.now }
{
    let mut number = 0;
    for i in 0..bits.len() {
        let bit = bits[bits.len() - 1 - i];
        let digit = digit_of(value_of_bit(values, bit));
        number = 2 * number + digit;
    }
    number
}

// what a run draws at a site
fn draw_of(program: &Program, values: &[bool], site: &DrawSite) -> Draw
    requires wide { IsWide program.now.model site.now }
    ensures { (v : ℕ → Bool) (net : List NetNode) → values.now ≡ values_of v net → result
        ≡ draw_at (program_view program.now) v net site.now }
{
    let number = number_of(values, site.bits.bits.as_slice());
    Draw {
        spot: site.spot,
        ty: site.ty,
        value: convert(program.model, site.ty, i128::from(number)),
        from: site.from,
    }
}

/// The draws at the sites that are live where the inputs of the net have these values.
pub fn draws_under(
    alloc: Global,
    program: &Program,
    net: &Net,
    sites: &[DrawSite],
    inputs: &[bool],
) -> Result<Seq<Draw>, OutOfMemory>
    requires wide { All (IsWide program.now.model) sites.now }
    ensures { IfOk result (λ r. r ≡ draws_at (program_view program.now) (inputs_of inputs.now) net.now sites.now) }
{
    let values = net.values(alloc, inputs)?;
    let mut draws = Seq::new(alloc);
    for site in sites {
        if value_of_bit(&values, site.live) {
            draws.push(draw_of(program, &values, site))?;
        }
    }
    Ok(draws)
}
