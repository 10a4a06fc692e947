// Worked examples of all crates together.
ghost use Rattle.station.specs.Examples.{Examples};

// The examples hold of what the stages, the outer code, the line and a station mean.
pub fn examples_hold()
    ensures { Examples }
{
    stages::examples::examples_hold();
    reed_solomon::examples::examples_hold();
    line::examples::examples_hold();
}
