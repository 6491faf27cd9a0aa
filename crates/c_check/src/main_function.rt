// The function `main` (C11 5.1.2.2.1).
ghost use Rattle.std.specs.Prelude.{◌≡◌, ◌+◌, ◌&&◌, codes, map, IfOk};
ghost use Rattle.std.specs.List.{position_or_len};
ghost use Rattle.std.specs.Str.{bytes_eq};
ghost use Rattle.c_check.specs.Checking.{names_of};
ghost use Rattle.c_parser.specs.SourceView.{item_view, param_view};
ghost use Rattle.check_rules.specs.First as first;

use c_core::{Function, IntType, Spot};
use c_parser::{Item, RawParam};
use wv_base::OutOfMemory;

fn is_main(name: &str) -> bool
    ensures { result ≡ bytes_eq name.now (codes "main") }
{
    name == "main"
}

fn is_right(gives: Option<IntType>, params: &[RawParam]) -> bool
    ensures { result ≡ (first.has_none (map param_view params.now) && first.is_result_of_main gives) }
{
    if !params.is_empty() {
        return false;
    }
    match gives {
        None => true,
        Some(IntType::Int) => true,
        Some(_) => false,
    }
}

/// Where `main` is refused: at its name for parameters or another result, at the start of the source where there is
/// none.
pub fn wrong_main(items: &[Item]) -> Option<Spot>
    ensures { result ≡ first.wrong_main (map item_view items.now) }
{
    for item in items {
        if let Item::Function {
            spot,
            name,
            result: gives,
            params,
            ..
        } = item
            && is_main(name.as_str())
        {
            return if is_right(*gives, params.as_slice()) {
                None
            } else {
                Some(*spot)
            };
        }
    }
    Some(Spot { line: 1, column: 1 })
}

// The number after this one; the last of its type has none.
fn next(number: u32) -> Result<u32, OutOfMemory>
    ensures { IfOk result (λ n. n ≡ number + 1) }
{
    number.checked_add(1).ok_or(OutOfMemory)
}

/// The number of `main`, or of all functions where there is none.
pub fn number_of_main(functions: &[Function]) -> Result<u32, OutOfMemory>
    ensures { IfOk result (λ n. n ≡ position_or_len (bytes_eq (codes "main")) (names_of functions.now)) }
{
    let mut number = 0u32;
    for function in functions {
        if is_main(function.name.as_str()) {
            return Ok(number);
        }
        number = next(number)?;
    }
    Ok(number)
}
