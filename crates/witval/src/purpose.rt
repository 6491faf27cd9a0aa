// What a program and its witness are judged for.
use clauses::Refutation;
use wv_arguments::Budgets;
use wv_base::Seq;

/// A verdict; a certificate, with a budget of conflicts; a certificate to check again, by its bytes; the invariants
/// that hold up together, with a budget of conflicts; or values for open inputs, with a bound on turns and calls and a
/// budget of conflicts.
#[derive(Drop)]
pub enum Purpose {
    Judge(Budgets),
    Certify(u64),
    Recheck(Seq<u8>),
    Weed(u64),
    Seek { turns: u32, conflicts: u64 },
}

/// What is done with a checked program: it is judged; it is certified; the logs of a certificate are checked; its
/// invariants are weeded; or values for its open inputs are sought.
#[derive(Drop)]
pub enum Work {
    Judge(Budgets),
    Certify(u64),
    Recheck(Seq<Refutation>),
    Weed(u64),
    Seek { turns: u32, conflicts: u64 },
}
