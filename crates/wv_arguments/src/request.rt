/// The names of the files that are judged.
#[derive(Clone, Copy, Debug, PartialEq, Eq)]
pub struct Names<'a> {
    pub program: &'a str,
    pub property: &'a str,
    pub witness: &'a str,
}

/// The names of the files that a violation witness is written from.
#[derive(Clone, Copy, Debug, PartialEq, Eq)]
pub struct Sources<'a> {
    pub program: &'a str,
    pub property: &'a str,
    pub values: &'a str,
}

/// What a witness that is written says of itself: a data model, an identifier and a creation time.
#[derive(Clone, Copy, Debug, PartialEq, Eq)]
pub struct Label<'a> {
    pub model: &'a str,
    pub uuid: &'a str,
    pub time: &'a str,
}

/// The most steps of a run, and the most clauses that the solver derives for one obligation.
#[derive(Clone, Copy, Debug, PartialEq, Eq)]
pub struct Budgets {
    pub steps: u64,
    pub conflicts: u64,
}

/// A verdict; a summary of a witness, by its file's name; its canonical form; a made program with its verdicts, by a
/// number; a certificate; a certificate checked again, by its file's name; a violation witness, by the values of a
/// run's inputs; the invariants that hold up together; values for the open inputs of a violation witness, within a bound
/// on turns of loops and nested calls.
#[derive(Clone, Copy, Debug, PartialEq, Eq)]
pub enum Request<'a> {
    Validate {
        names: Names<'a>,
        budgets: Budgets,
    },
    Show(&'a str),
    Normalise(&'a str),
    Demo {
        number: u64,
        budgets: Budgets,
    },
    Certify {
        names: Names<'a>,
        conflicts: u64,
    },
    Recheck {
        names: Names<'a>,
        certificate: &'a str,
    },
    Author {
        sources: Sources<'a>,
        label: Label<'a>,
        steps: u64,
    },
    Weed {
        names: Names<'a>,
        conflicts: u64,
    },
    Seek {
        names: Names<'a>,
        turns: u64,
        conflicts: u64,
    },
}

/// What the arguments ask for, `None` where they are misused, and whether reports are JSON.
#[derive(Clone, Copy, Debug, PartialEq, Eq)]
pub struct Asked<'a> {
    pub request: Option<Request<'a>>,
    pub json: bool,
}
