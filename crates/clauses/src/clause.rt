// Clauses, and those of an and-node.
ghost use Rattle.std.specs.Prelude.{◌≡◌, ℕ, ◌<◌, ◌^◌, [], ◌∷◌, SomeIff, pos, neg_ℤ};
ghost use Rattle.clauses.specs.Clause.{IsClause, IsNumber};
ghost use Rattle.clauses.specs.Tseitin.{number_of, rising_two, gate_clauses};

use crate::numbers::are_clause;
use std::marker::Model;
use wv_base::Seq;

// the numbers of a clause: up to three in the value itself, which takes no memory, more in a list
#[derive(Drop)]
enum Numbers {
    One([i32; 1]),
    Two([i32; 2]),
    Three([i32; 3]),
    Many(Seq<i32>),
}

/// A clause: n stands for variable n and -n for its opposite. Contracts see the list of its numbers, which rise, are
/// nonzero and above -2^31, and hold no number together with its opposite.
#[derive(Drop)]
pub struct Clause {
    numbers: Numbers,
}

impl Model for Clause {
    ghost use Rattle.std.specs.Prelude.{List, ℤ};

    ghost Value = { List ℤ };

    ghost use Rattle.clauses.specs.Clause.{IsClause};
    ghost use Rattle.clauses.specs.Numbers.{numbers_in};

    ghost view = { λ c. numbers_in c.numbers };

    ghost invariant = { λ c. IsClause (numbers_in c.numbers) };
}

impl Clause {
    /// The clause's numbers, rising by their variables.
    pub fn numbers(&self) -> &[i32]
        ensures same { result.now ≡ self.now }
        ensures fine { IsClause self.now }
    {
        match &self.numbers {
            Numbers::One(numbers) => numbers,
            Numbers::Two(numbers) => numbers,
            Numbers::Three(numbers) => numbers,
            Numbers::Many(numbers) => numbers.as_slice(),
        }
    }

    /// The clause of these numbers, kept in their list however few they are.
    pub fn from_numbers(numbers: Seq<i32>) -> Clause
        requires { IsClause numbers }
        ensures { result ≡ numbers }
    {
        Clause {
            numbers: Numbers::Many(numbers),
        }
    }

    /// The clause of these numbers, or `None` where they are not those of a clause.
    pub fn new(numbers: Seq<i32>) -> Option<Clause>
        ensures { SomeIff result (IsClause numbers) numbers }
    {
        if are_clause(numbers.as_slice()) {
            return Some(Clause::from_numbers(numbers));
        }
        None
    }
}

/// The number of a variable, or its opposite.
pub fn number(negated: bool, variable: u32) -> i32
    requires { variable < 2 ^ 31 }
    ensures { result ≡ number_of negated variable }
{
    let number = variable as i32;
    if negated { -number } else { number }
}

/// A clause of one number.
pub fn one(x: i32) -> Clause
    requires { IsNumber x }
    ensures { result ≡ x ∷ [] }
{
    Clause {
        numbers: Numbers::One([x]),
    }
}

/// A clause of two numbers.
pub fn two(x: i32, y: i32) -> Clause
    requires { IsClause (x ∷ y ∷ []) }
    ensures { result ≡ x ∷ y ∷ [] }
{
    Clause {
        numbers: Numbers::Two([x, y]),
    }
}

/// A clause of three numbers.
pub fn three(x: i32, y: i32, z: i32) -> Clause
    requires { IsClause (x ∷ y ∷ z ∷ []) }
    ensures { result ≡ x ∷ y ∷ z ∷ [] }
{
    Clause {
        numbers: Numbers::Three([x, y, z]),
    }
}
