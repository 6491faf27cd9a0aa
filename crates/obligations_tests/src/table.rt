// Every operator at numbers of 8 bits that are converted to `int`, beside the calls on numbers.
use c_core::{BinOp, DataModel, Done, IntType, UnOp, apply, apply_one, convert};
use circuits::{
    Bits, Net, Outcome, apply_bits, choose_bits, const_bits, convert_bits, input_bits, one_bits,
    value_of_bit,
};
use std::alloc::Global;
use std::test::Fail;
use wv_base::OutOfMemory;

const LP64: DataModel = DataModel::Lp64;

// The number of bits, of the values of all nodes.
fn number(values: &[bool], ty: IntType, bits: &Bits) -> i128 {
    let mut number: i128 = 0;
    for bit in bits.bits.as_slice().iter().rev() {
        let digit = i128::from(value_of_bit(values, *bit));
        number = number.wrapping_mul(2).wrapping_add(digit);
    }
    convert(LP64, ty, number)
}

// What an outcome says, of the values of all nodes.
fn done(values: &[bool], ty: IntType, out: &Outcome) -> Done {
    if value_of_bit(values, out.undefined) {
        return Done::Undefined;
    }
    let value = number(values, ty, &out.value);
    if value_of_bit(values, out.overflow) {
        Done::Overflow(value)
    } else {
        Done::Value(value)
    }
}

/// An operator on inputs.
#[derive(Drop)]
struct Circuit {
    net: Net,
    out: Outcome,
}

#[tactic(auto, using(circuits::proofs::Feeding::typed_fed, circuits::proofs::Feeding::typed_later))]
fn circuit_of_two(alloc: Global, op: BinOp) -> Result<Circuit, OutOfMemory> {
    let mut net = Net::new(alloc)?;
    let a = input_bits(alloc, &mut net, LP64, IntType::SChar)?;
    let b = input_bits(alloc, &mut net, LP64, IntType::SChar)?;
    let x = convert_bits(alloc, &mut net, LP64, IntType::SChar, IntType::Int, &a)?;
    let y = convert_bits(alloc, &mut net, LP64, IntType::SChar, IntType::Int, &b)?;
    let out = apply_bits(
        alloc,
        &mut net,
        LP64,
        op,
        IntType::Int,
        &x,
        IntType::Int,
        &y,
    )?;
    Ok(Circuit { net, out })
}

fn circuit_of_one(alloc: Global, op: UnOp) -> Result<Circuit, OutOfMemory> {
    let mut net = Net::new(alloc)?;
    let a = input_bits(alloc, &mut net, LP64, IntType::SChar)?;
    let x = convert_bits(alloc, &mut net, LP64, IntType::SChar, IntType::Int, &a)?;
    let out = one_bits(alloc, &mut net, LP64, op, IntType::Int, &x)?;
    Ok(Circuit { net, out })
}

// The lowest 8 digits of a, then those of b.
fn digits(alloc: Global, a: i32, b: i32) -> Result<Vec<bool>, OutOfMemory> {
    let mut out = Vec::new(alloc);
    for k in 0..8u32 {
        out.push((a >> k) & 1 == 1)?;
    }
    for k in 0..8u32 {
        out.push((b >> k) & 1 == 1)?;
    }
    Ok(out)
}

fn outcome(alloc: Global, circuit: &Circuit, a: i32, b: i32) -> Result<Done, OutOfMemory> {
    let inputs = digits(alloc, a, b)?;
    let values = circuit.net.values(alloc, &inputs)?;
    Ok(done(&values, IntType::Int, &circuit.out))
}

// Whether a and each b give what the number call says.
fn agrees_at(alloc: Global, circuit: &Circuit, op: BinOp, a: i32) -> Result<bool, OutOfMemory> {
    for b in -128..128 {
        let wanted = apply(LP64, op, IntType::Int, i128::from(a), i128::from(b));
        if outcome(alloc, circuit, a, b)? != wanted {
            return Ok(false);
        }
    }
    Ok(true)
}

fn operator_agrees(alloc: Global, op: BinOp) -> Result<bool, OutOfMemory> {
    let circuit = circuit_of_two(alloc, op)?;
    for a in [-128, -86, -7, -1, 0, 1, 5, 127] {
        if !agrees_at(alloc, &circuit, op, a)? {
            return Ok(false);
        }
    }
    Ok(true)
}

fn unary_agrees(alloc: Global, op: UnOp) -> Result<bool, OutOfMemory> {
    let circuit = circuit_of_one(alloc, op)?;
    for a in -128..128 {
        let wanted = apply_one(LP64, op, IntType::Int, i128::from(a));
        if outcome(alloc, &circuit, a, 0)? != wanted {
            return Ok(false);
        }
    }
    Ok(true)
}

#[test]
fn operators_agree_with_the_calls_on_numbers(rt: HostRuntime) -> Result<(), Fail> {
    for op in [
        BinOp::Add,
        BinOp::Sub,
        BinOp::Mul,
        BinOp::Div,
        BinOp::Rem,
        BinOp::Shl,
        BinOp::Shr,
        BinOp::And,
        BinOp::Xor,
        BinOp::Or,
        BinOp::Lt,
        BinOp::Le,
        BinOp::Gt,
        BinOp::Ge,
        BinOp::Eq,
        BinOp::Ne,
    ] {
        assert!(rt; operator_agrees(rt.alloc(), op)?);
    }
    for op in [UnOp::Plus, UnOp::Neg, UnOp::BitNot, UnOp::Not] {
        assert!(rt; unary_agrees(rt.alloc(), op)?);
    }
    Ok(())
}

// The bit that chooses is a constant, so it folds.
#[test]
fn chooses_a_number(rt: HostRuntime) -> Result<(), Fail> {
    let mut net = Net::new(rt.alloc())?;
    let one = const_bits(rt.alloc(), &net, LP64, IntType::Int, 1)?;
    let two = const_bits(rt.alloc(), &net, LP64, IntType::Int, 2)?;
    let yes = net.yes();
    let out = choose_bits(rt.alloc(), &mut net, yes, &one, &two)?;
    let values = net.values(rt.alloc(), &[])?;
    assert_eq!(rt; number(&values, IntType::Int, &out), 1);
    assert_eq!(rt; net.ands(), 0);
    Ok(())
}
