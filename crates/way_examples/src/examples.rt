// Examples on which the definitions of waypoints, matching, given values and verdicts are computed.
ghost use Rattle.way_examples.specs.ExampleGiven.{ExampleGiven};
ghost use Rattle.way_examples.specs.ExamplePassing.{ExamplePassing};
ghost use Rattle.way_examples.specs.ExampleVerdicts.{ExampleMatches, ExampleVerdicts};

fn example_passing()
    ensures { ExamplePassing }
{}

fn example_matches()
    ensures { ExampleMatches }
{}

fn example_given()
    ensures { ExampleGiven }
{}

fn example_verdicts()
    ensures { ExampleVerdicts }
{}
