// What a receiver hears of a block: each symbol as a reading, clean or wrong.

// A reading of one symbol.
pub trait Sample: Clone + Copy {
    // The clean reading of a symbol.
    fn clean(symbol: u8) -> Self;

    // A reading that is as sure of another symbol.
    fn wrong(symbol: u8) -> Self;
}

// On the bare carrier a reading is a byte.
impl Sample for u8 {
    fn clean(symbol: u8) -> u8 {
        symbol
    }

    // Every bit of it flipped.
    fn wrong(symbol: u8) -> u8 {
        !symbol
    }
}

// On the line a reading leans to mark 0 above zero, and to mark 1 below.
impl Sample for i8 {
    fn clean(symbol: u8) -> i8 {
        if symbol == 0 { 100 } else { -100 }
    }

    fn wrong(symbol: u8) -> i8 {
        if symbol == 0 { -100 } else { 100 }
    }
}
