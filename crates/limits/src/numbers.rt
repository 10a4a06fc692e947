// The eleven numbers of a plan, as they are written down.
ghost use Rattle.std.specs.Prelude.{◌≡◌};
ghost use Rattle.limits.specs.Numbers.{numbers_of};

// A plan as its eleven numbers, in their order: nothing is known of them until they are judged.
#[derive(Clone, Copy, Debug, PartialEq, Eq)]
pub struct PlanNumbers {
    // 1 or 2: the field of bytes.
    pub field: usize,
    // The power of 02 that is the first root of the code.
    pub root: usize,
    // How many words a block has.
    pub words: usize,
    // How many data bytes a word has.
    pub length: usize,
    // How many bytes of a word are corrected.
    pub errors: usize,
    // The randomiser's seed, 0 for none.
    pub seed: usize,
    // 1 for a check byte, 0 for none.
    pub check: usize,
    // 0 for the bare carrier, 1 for the line.
    pub carrier: usize,
    // 1 one half, 2 two thirds, 3 three quarters, 4 one third; 0 on the bare carrier.
    pub rate: usize,
    // The rows of the helical rule; 0 on the bare carrier.
    pub rows: usize,
    // The columns of the helical rule; 0 on the bare carrier.
    pub columns: usize,
}

// One of the eleven.
#[derive(Clone, Copy, Debug, PartialEq, Eq)]
pub enum PlanNumber {
    Field,
    Root,
    Words,
    Length,
    Errors,
    Seed,
    Check,
    Carrier,
    Rate,
    Rows,
    Columns,
}

// Eleven numbers in their order, by their names.
impl From<[usize; 11]> for PlanNumbers {
    ghost from_gives = { λ ns p. p ≡ numbers_of ns };

    fn from(numbers: [usize; 11]) -> PlanNumbers {
        let [
            field,
            root,
            words,
            length,
            errors,
            seed,
            check,
            carrier,
            rate,
            rows,
            columns,
        ] = numbers;
        PlanNumbers {
            field,
            root,
            words,
            length,
            errors,
            seed,
            check,
            carrier,
            rate,
            rows,
            columns,
        }
    }
}
