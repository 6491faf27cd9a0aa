// Examples on which the definitions of weights are computed.
ghost use Rattle.weight_examples.specs.ExampleWeights.{ExampleWeights};

fn example_weights()
    ensures { ExampleWeights }
{}
