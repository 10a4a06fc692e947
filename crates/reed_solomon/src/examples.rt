// Worked examples of the Reed-Solomon stage.
ghost use Rattle.reed_solomon.specs.Examples.{Examples};

// The examples hold of what the stage means.
pub fn examples_hold()
    ensures { Examples }
{}
