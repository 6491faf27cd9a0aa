// A table of weights that shows that first variables don't decide clauses. A table has two cells for each variable, that
// of its literal and that of the opposite: 2 where it is true, 1 where it is open, 0 where it is false. Whoever takes a
// table checks what it shows.
use crate::cells::at;
use crate::lit::Lit;
use crate::search::Search;
use crate::values::Value;
use clauses::Cnf;
use std::alloc::Global;
use wv_base::OutOfMemory;

const NONE: Lit = Lit { code: 0 };

/// So many choices of values are tried for the first variables.
const PATIENCE: u32 = 1 << 20;

// the least of the first k variables without a value
fn first_open(search: &Search, k: u32) -> Option<u32> {
    for before in 0..k {
        let variable = before + 1;
        if matches!(
            search.values.value(Lit::of_variable(variable, true)),
            Value::Open
        ) {
            return Some(variable);
        }
    }
    None
}

// takes decisions back up to the latest that made its variable false, and makes it true: whether there is one
fn turn(search: &mut Search) -> Result<bool, OutOfMemory> {
    for _ in 0..search.many {
        let level = search.values.level();
        if level == 0 {
            return Ok(false);
        }
        let place = search.values.end_of(level - 1);
        let decided = at(&search.values.trail, place, NONE);
        search.cancel_until(level - 1)?;
        if decided.is_negative() {
            search.values.decide(decided.opposite())?;
            return Ok(true);
        }
    }
    Ok(false)
}

// tries values of the first k variables in turn, until no clause fails and some variable is open
fn leave_open(search: &mut Search, k: u32) -> Result<(), OutOfMemory> {
    for _ in 0..PATIENCE {
        if search.propagate()?.is_some() || search.values.trail.len() + 1 >= search.many {
            if !turn(search)? {
                break;
            }
            continue;
        }
        let Some(variable) = first_open(search, k) else {
            break;
        };
        search.values.decide(Lit::of_variable(variable, false))?;
    }
    Ok(())
}

/// Values of the first k variables, and what follows from them by the given clauses: no failure and not all values,
/// where there are such.
pub fn weights_of_first(alloc: Global, cnf: &Cnf, k: u32) -> Result<Vec<u8>, OutOfMemory> {
    let mut search = Search::new(alloc, cnf.variables, true)?;
    let _ = search.add_all(&cnf.clauses)?;
    leave_open(&mut search, k)?;
    let values = search.values;
    Ok(values.weights)
}
