// The texts of the two programs.
ghost use Rattle.std.specs.Prelude.{◌≡◌, ◌++◌, ◌+◌, ◌<◌, ◌^◌, IfOk, OnOk, length, string_bytes};
ghost use Rattle.wv_author.specs.Programs.{closing, input_lines, loop_lines, loops_lines, opening};

use std::alloc::Global;
use wv_base::{OutOfMemory, Text};

const OPENING: &str = "void reach_error() { }\nint __VERIFIER_nondet_int();\nint main() {\n";

const CLOSING: &str = "  return 0;\n}\n";

/// A loop up to its bound, and the test of its variable after it.
fn add_loop(out: &mut String, k: u32, bound: u32) -> Result<(), OutOfMemory>
    ensures { OnOk result (string_bytes out.new ≡ string_bytes out.old ++ loop_lines k bound) }
{
    write!(out, "  int x{k} = 0;\n")?;
    write!(out, "  while (x{k} < {bound}) {{\n")?;
    write!(out, "    x{k} = x{k} + 1;\n")?;
    out.push_str("  }\n")?;
    write!(out, "  if (x{k} != {bound}) {{\n")?;
    out.push_str("    reach_error();\n")?;
    out.push_str("  }\n")?;
    Ok(())
}

/// A loop for each bound.
fn add_loops(out: &mut String, bounds: &[u32]) -> Result<(), OutOfMemory>
    requires { length bounds.now < 2 ^ 16 }
    ensures { OnOk result (string_bytes out.new ≡ string_bytes out.old ++ loops_lines 1 bounds.now) }
{
    let mut k = 1;
    for bound in bounds {
        add_loop(out, k, *bound)?;
        k += 1;
    }
    Ok(())
}

/// The input that reaches the error.
fn add_input(out: &mut String, number: u32) -> Result<(), OutOfMemory>
    ensures { OnOk result (string_bytes out.new ≡ string_bytes out.old ++ input_lines number) }
{
    out.push_str("  int y = __VERIFIER_nondet_int();\n")?;
    write!(out, "  if (y == {number}) {{\n")?;
    out.push_str("    reach_error();\n")?;
    out.push_str("  }\n")?;
    Ok(())
}

/// The program of loops alone.
pub fn correct_program(alloc: Global, bounds: &[u32]) -> Result<Text, OutOfMemory>
    requires { length bounds.now < 2 ^ 16 }
    ensures { IfOk result (λ text. text ≡ opening ++ loops_lines 1 bounds.now ++ closing) }
{
    let mut out = String::from_str(alloc, OPENING)?;
    add_loops(&mut out, bounds)?;
    out.push_str(CLOSING)?;
    Text::of(alloc, out.as_str())
}

/// The program that reaches the error after its loops, where its input is the number.
pub fn faulty_program(alloc: Global, bounds: &[u32], number: u32) -> Result<Text, OutOfMemory>
    requires { length bounds.now < 2 ^ 16 }
    ensures { IfOk result (λ text. text ≡ opening ++ loops_lines 1 bounds.now ++ input_lines number ++ closing) }
{
    let mut out = String::from_str(alloc, OPENING)?;
    add_loops(&mut out, bounds)?;
    add_input(&mut out, number)?;
    out.push_str(CLOSING)?;
    Text::of(alloc, out.as_str())
}
