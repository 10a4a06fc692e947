// Worked examples of the stages.
ghost use Rattle.stages.specs.Examples.{Examples};

// The examples hold of what the stages mean.
pub fn examples_hold()
    ensures { Examples }
{}
