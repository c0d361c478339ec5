// Two small runs of the definitions.
ghost use Rattle.protocol.specs.Examples.{RunExamples};

pub fn run_examples_stand()
    ensures { RunExamples }
{}
