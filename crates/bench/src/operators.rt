// Builds the circuit of the operator and the type that its words name, and prints how large it is, or the net itself
// in BLIF: what bench/circuits counts, times and hands to ABC.
ghost use Rattle.std.specs.Prelude.{◌<◌, ◌^◌, OnOk, length};
ghost use Rattle.c_core.specs.Types.{IsPromoted};

use c_core::{BinOp, DataModel, IntType};
use circuits::{Bit, Net, NetNode, Outcome, apply_bits, convert_bits, input_bits, not};
use clauses::cnf_of;
use std::alloc::Global;
use std::io;
use wv_base::OutOfMemory;

const LP64: DataModel = DataModel::Lp64;

/// A net and what an operator gives in it.
#[derive(Drop)]
struct Circuit {
    net: Net,
    out: Outcome,
}

// so it is in every net that `build` makes
fn has_room(net: &Net) -> Result<(), OutOfMemory>
    ensures { OnOk result (length net.now < 2 ^ 28) }
{
    if net.nodes() < 1 << 28 {
        Ok(())
    } else {
        Err(OutOfMemory)
    }
}

/// An operator on two numbers whose digits are inputs, converted as C does before it computes.
#[tactic(auto, using(circuits::proofs::Feeding::typed_fed, circuits::proofs::Feeding::typed_later))]
fn build(alloc: Global, op: BinOp, ty: IntType, wide: IntType) -> Result<Circuit, OutOfMemory>
    requires { IsPromoted wide }
{
    let mut net = Net::new(alloc)?;
    let a = input_bits(alloc, &mut net, LP64, ty)?;
    let b = input_bits(alloc, &mut net, LP64, ty)?;
    let x = convert_bits(alloc, &mut net, LP64, ty, wide, &a)?;
    has_room(&net)?;
    let y = convert_bits(alloc, &mut net, LP64, ty, wide, &b)?;
    has_room(&net)?;
    let out = apply_bits(alloc, &mut net, LP64, op, wide, &x, wide, &y)?;
    Ok(Circuit { net, out })
}

/// The bit that tells whether a number isn't 0. The tests hold in every net that `build` makes.
fn some(net: &mut Net, bits: &[Bit]) -> Result<Bit, OutOfMemory> {
    let mut none = net.yes();
    for bit in bits {
        let nodes = net.nodes();
        if nodes < 1 << 28 && u64::from(bit.node) < nodes && u64::from(none.node) < nodes {
            none = net.and(none, not(*bit))?;
        }
    }
    Ok(not(none))
}

/// How many clauses a bit has.
fn count_clauses(alloc: Global, net: &Net, bit: Bit) -> Result<usize, OutOfMemory> {
    let nodes = net.nodes();
    if nodes < 1 << 28 && u64::from(bit.node) < nodes {
        let cnf = cnf_of(alloc, net, bit)?;
        return Ok(cnf.clauses.len());
    }
    Ok(0)
}

/// The and-nodes of an operator, and the clauses of the bit that tells whether its value isn't 0.
fn count(alloc: Global, circuit: &mut Circuit) -> Result<(u64, usize), OutOfMemory> {
    let ands = circuit.net.ands();
    let bit = some(&mut circuit.net, circuit.out.value.bits.as_slice())?;
    let clauses = count_clauses(alloc, &circuit.net, bit)?;
    Ok((ands, clauses))
}

fn print_node(rt: &HostRuntime, at: u32, node: NetNode) -> io::Result<()> {
    match node {
        NetNode::Constant(value) => println!(rt; ".names n{at}\n{}", u8::from(value)),
        NetNode::Input(_) => println!(rt; ".inputs n{at}"),
        NetNode::And(a, b) => {
            println!(rt;
                ".names n{} n{} n{at}\n{}{} 1",
                a.node,
                b.node,
                u8::from(!a.negated),
                u8::from(!b.negated)
            )
        }
    }
}

fn print_output(rt: &HostRuntime, name: &str, bit: Bit) -> io::Result<()> {
    println!(rt;
        ".outputs {name}\n.names n{} {name}\n{} 1",
        bit.node,
        u8::from(!bit.negated)
    )
}

fn print_net(rt: &HostRuntime, net: &Net, out: &Outcome) -> io::Result<()> {
    println!(rt; ".model circuit")?;
    for at in 0..net.nodes() {
        if let Ok(at) = u32::try_from(at) {
            print_node(rt, at, net.node(at))?;
        }
    }
    for (i, bit) in out.value.bits.as_slice().iter().enumerate() {
        println!(rt;
            ".outputs v{i}\n.names n{} v{i}\n{} 1",
            bit.node,
            u8::from(!bit.negated)
        )?;
    }
    print_output(rt, "overflow", out.overflow)?;
    print_output(rt, "undefined", out.undefined)?;
    println!(rt; ".end")
}

fn print(rt: &HostRuntime, circuit: &mut Circuit, form: &str) -> io::Result<()> {
    if form == "blif" {
        return print_net(rt, &circuit.net, &circuit.out);
    }
    match count(rt.alloc(), circuit) {
        Ok((ands, clauses)) => println!(rt; "{ands} and-nodes, {clauses} clauses"),
        Err(_) => println!(rt; "out of memory"),
    }
}

fn report(rt: &HostRuntime, op: BinOp, ty: &str, form: &str) -> io::Result<()> {
    let alloc = rt.alloc();
    let built = match ty {
        "s8" => build(alloc, op, IntType::SChar, IntType::Int),
        "u8" => build(alloc, op, IntType::UChar, IntType::Int),
        "s16" => build(alloc, op, IntType::Short, IntType::Int),
        "u16" => build(alloc, op, IntType::UShort, IntType::Int),
        "s32" => build(alloc, op, IntType::Int, IntType::Int),
        "u32" => build(alloc, op, IntType::UInt, IntType::UInt),
        "s64" => build(alloc, op, IntType::LongLong, IntType::LongLong),
        _ => build(alloc, op, IntType::ULongLong, IntType::ULongLong),
    };
    match built {
        Ok(mut circuit) => print(rt, &mut circuit, form),
        Err(_) => println!(rt; "out of memory"),
    }
}

pub fn run(rt: &HostRuntime, words: &[String]) -> io::Result<()> {
    let [operator, ty, form] = words else {
        return println!(rt;
            "words: add, multiply, divide or shift; s8 to s64 or u8 to u64; count or blif"
        );
    };
    match operator.as_str() {
        "add" => report(rt, BinOp::Add, ty.as_str(), form.as_str()),
        "multiply" => report(rt, BinOp::Mul, ty.as_str(), form.as_str()),
        "divide" => report(rt, BinOp::Div, ty.as_str(), form.as_str()),
        _ => report(rt, BinOp::Shl, ty.as_str(), form.as_str()),
    }
}
