// Worked examples of the line.
ghost use Rattle.line.specs.Examples.{Examples};

// The examples hold of what the line and its parts mean.
pub fn examples_hold()
    ensures { Examples }
{}
