// The objects and elements that an expression reads, and their values in a memory.
use c_core::{Expr, Node, Program};
use c_meaning::{Memory, value_in};
use std::alloc::Global;
use view_counts::open_parts;
use wv_base::OutOfMemory;

/// So many parts of an expression are looked at.
const MOST_PARTS: usize = 1_000;

/// So many of its objects and elements are told.
const MOST_READS: usize = 6;

/// The value of an object or an element, and the indexes of an element; none where they are undefined or not live.
#[derive(Clone, Copy)]
pub struct Sample {
    value: Option<i128>,
    row: Option<i128>,
    column: Option<i128>,
}

/// Whether two expressions are the same object.
fn is_same_object(a: &Expr, b: &Expr) -> bool {
    match (&a.node, &b.node) {
        (Node::Var(x), Node::Var(y)) => *x == *y,
        _ => false,
    }
}

fn has_object(reads: &[&Expr], e: &Expr) -> bool {
    for read in reads {
        if is_same_object(*read, e) {
            return true;
        }
    }
    false
}

fn is_read(e: &Expr) -> bool {
    match &e.node {
        Node::Var(_) => true,
        Node::Index { .. } => true,
        _ => false,
    }
}

/// The objects and elements that an expression reads, from the left, objects once.
pub fn reads_of<'a>(alloc: Global, e: &'a Expr) -> Result<Vec<&'a Expr>, OutOfMemory> {
    let mut reads: Vec<&'a Expr> = Vec::new(alloc);
    let mut open: Vec<&'a Expr> = Vec::new(alloc);
    open.push(e)?;
    for _ in 0..MOST_PARTS {
        let Some(part) = open.pop() else {
            break;
        };
        if is_read(part) && reads.len() < MOST_READS && !has_object(reads.as_slice(), part) {
            reads.push(part)?;
        }
        open_parts(&mut open, part)?;
    }
    Ok(reads)
}

/// The value of an index by its number from 0, where there is one.
fn index_of(program: &Program, e: &Expr, number: usize, memory: &Memory) -> Option<i128> {
    match &e.node {
        Node::Index { at, .. } => match at.get(number) {
            Some(index) => value_in(program, index, memory),
            None => None,
        },
        _ => None,
    }
}

/// The values of what an expression reads.
pub fn samples_of(
    alloc: Global,
    program: &Program,
    e: &Expr,
    memory: &Memory,
) -> Result<Vec<Sample>, OutOfMemory> {
    let reads = reads_of(alloc, e)?;
    let mut samples = Vec::new(alloc);
    for read in reads.as_slice() {
        samples.push(Sample {
            value: value_in(program, *read, memory),
            row: index_of(program, *read, 0, memory),
            column: index_of(program, *read, 1, memory),
        })?;
    }
    Ok(samples)
}

/// The name of what is read; empty where it is no object.
fn name_of<'p>(program: &'p Program, e: &Expr) -> &'p str {
    let object = match &e.node {
        Node::Var(object) => *object,
        Node::Index { object, .. } => *object,
        _ => return "",
    };
    match program.objects.get(object as usize) {
        Some(found) => found.name.as_str(),
        None => "",
    }
}

fn push_index(text: &mut String, index: Option<i128>) -> Result<(), OutOfMemory> {
    if let Some(index) = index {
        write!(text, "[{index}]")?;
    }
    Ok(())
}

fn push_sample(
    text: &mut String,
    program: &Program,
    read: &Expr,
    sample: &Sample,
) -> Result<(), OutOfMemory> {
    text.push_str(name_of(program, read))?;
    push_index(text, sample.row)?;
    push_index(text, sample.column)?;
    match sample.value {
        Some(value) => write!(text, " = {value}")?,
        None => text.push_str(" has no value")?,
    }
    Ok(())
}

/// Appends the values of what an expression reads, as `x = 1, a[2] = 3`.
pub fn push_samples(
    text: &mut String,
    program: &Program,
    reads: &[&Expr],
    samples: &[Sample],
) -> Result<(), OutOfMemory> {
    let mut between = "";
    for (index, read) in reads.iter().enumerate() {
        if let Some(sample) = samples.get(index) {
            text.push_str(between)?;
            push_sample(text, program, *read, sample)?;
            between = ", ";
        }
    }
    Ok(())
}
