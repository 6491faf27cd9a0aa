// Laws of verdicts, each the contract of a function without a body.
ghost use Rattle.judge_obligations.specs.Telling.{FailingBitsTell};
ghost use Rattle.judge_obligations.specs.Verdicts.{OneAnswer};

/// Where no budget is spent, the right verdict is one alone but for the draws that it shows.
pub fn one_answer()
    ensures { OneAnswer }
{}

/// An obligation holds where no inputs make its failing bit true; where some do, a havoc run ends at it.
pub fn failing_bits_tell()
    ensures { FailingBitsTell }
{}
