// The rates of the convolutional code.

// How many bits a mark carries: one half and one third as the generators give them, two thirds and three quarters with marks of one half dropped.
#[derive(Clone, Copy, Debug, PartialEq, Eq)]
pub enum Rate {
    Half,
    TwoThirds,
    ThreeQuarters,
    Third,
}
