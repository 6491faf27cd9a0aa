// Examples on which the definitions of runs are computed.
ghost use Rattle.meaning_examples.specs.ExampleHavocRuns.{ExampleHavocRuns};
ghost use Rattle.meaning_examples.specs.ExampleRuns.{ExampleRuns};

fn example_runs()
    ensures { ExampleRuns }
{}

fn example_havoc_runs()
    ensures { ExampleHavocRuns }
{}
