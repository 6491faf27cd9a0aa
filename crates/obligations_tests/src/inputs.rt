// Inputs of nets: a number for each site of a net, by its digits.
use std::alloc::Global;
use sym_state::DrawSite;
use wv_base::OutOfMemory;

// The state after one of a generator (Marsaglia, Xorshift RNGs, 2003).
fn next(state: u64) -> u64 {
    let a = state ^ (state << 13);
    let b = a ^ (a >> 7);
    b ^ (b << 17)
}

// Half are below 8; the others are close below 2^64, powers of two, the numbers below them, or any numbers.
fn likely(state: u64) -> u64 {
    let rest = state >> 16;
    match state % 8 {
        0..=3 => rest % 8,
        4 => (rest % 8).wrapping_neg(),
        5 => 1u64 << (rest % 64),
        6 => (1u64 << (rest % 64)).wrapping_sub(1),
        _ => rest,
    }
}

// No digit is 1 under the first input, all are 1 under the second.
fn picked(number: u64, state: u64) -> u64 {
    match number {
        0 => 0,
        1 => u64::MAX,
        _ => likely(state),
    }
}

fn push_digits(inputs: &mut Vec<bool>, number: u64, count: usize) -> Result<(), OutOfMemory> {
    let mut rest = number;
    for _ in 0..count {
        inputs.push(rest % 2 == 1)?;
        rest /= 2;
    }
    Ok(())
}

/// The input of a number, the same on each machine.
pub fn numbered_input(
    alloc: Global,
    sites: &[DrawSite],
    number: u64,
) -> Result<Vec<bool>, OutOfMemory> {
    let mut inputs = Vec::new(alloc);
    let mut state = number.wrapping_mul(11400714819323198485);
    for site in sites {
        state = next(state);
        push_digits(&mut inputs, picked(number, state), site.bits.bits.len())?;
    }
    Ok(inputs)
}

/// The input under which the sites have these values, and those beyond the last have 0.
pub fn input_of(
    alloc: Global,
    sites: &[DrawSite],
    values: &[u64],
) -> Result<Vec<bool>, OutOfMemory> {
    let mut inputs = Vec::new(alloc);
    for (i, site) in sites.iter().enumerate() {
        let value = values.get(i).copied().unwrap_or(0);
        push_digits(&mut inputs, value, site.bits.bits.len())?;
    }
    Ok(inputs)
}
