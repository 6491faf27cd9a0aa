// Laws of the promise, each the contract of a function without a body.
ghost use Rattle.sym_duties.specs.Promise.{OneFails};

/// Whatever the inputs, at most one failing bit is true: that of the obligation at which the run ends.
pub fn one_obligation_fails()
    ensures { OneFails }
{}
