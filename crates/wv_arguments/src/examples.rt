// Command lines on which the definition is computed.
ghost use Rattle.wv_arguments.specs.Examples.{ReadsModes, RefusesWords};

fn reads_modes()
    ensures { ReadsModes }
{}

fn refuses_words()
    ensures { RefusesWords }
{}
