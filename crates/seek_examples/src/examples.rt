// Examples on which the definitions of the values that are sought are computed.
ghost use Rattle.seek_examples.specs.ExampleJudgedRuns.{ExampleJudgedRuns};
ghost use Rattle.seek_examples.specs.ExampleRunsWithBound.{ExampleRunsWithBound};
ghost use Rattle.seek_examples.specs.ExampleSeekWeights.{ExampleSeekWeights};
ghost use Rattle.seek_examples.specs.ExampleSeeks.{ExampleBounds, ExampleSeeks};

fn example_runs_with_bound()
    ensures { ExampleRunsWithBound }
{}

fn example_bounds()
    ensures { ExampleBounds }
{}

fn example_seeks()
    ensures { ExampleSeeks }
{}

fn example_seek_weights()
    ensures { ExampleSeekWeights }
{}

fn example_judged_runs()
    ensures { ExampleJudgedRuns }
{}
