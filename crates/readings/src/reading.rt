// Readings of marks: what each costs for mark 0 and for mark 1.
ghost use Rattle.std.specs.Prelude.{◌≡◌, ℕ, ◌+◌, ◌-◌, ◌<◌, ◌≤◌, ◌⊎◌, unsigned_abs};
ghost use Rattle.readings.specs.Readings.{hard_cost, soft_cost, clean_hard, clean_soft};
ghost use Rattle.readings.specs.Costs.{hard_bounded, hard_free, clean_hard-free, clean_hard-dear, soft_bounded, soft_free, clean_soft-free, clean_soft-dear};

// A reading of one mark: a cost for mark 0 and a cost for mark 1, one of them 0.
pub trait Reading: Copy {
    // What the reading costs for a mark, where any mark but 0 counts as 1.
    ghost cost: { Self → ℕ → ℕ };

    // The clean reading of a mark.
    ghost clean: { ℕ → Self };

    // What the reading costs for mark 0 and for mark 1.
    fn costs(&self) -> (u8, u8)
        ensures { (result.0 ≡ cost self.now 0) × (result.1 ≡ cost self.now 1) };

    // No cost passes 128.
    ghost bounded: { (r : Self) (m : ℕ) → cost r m ≤ 128 };

    // One of the two costs is 0.
    ghost one_free: { (r : Self) → (cost r 0 ≡ 0) ⊎ (cost r 1 ≡ 0) };

    // A clean reading costs nothing for its mark.
    ghost clean_free: { (m : ℕ) → m < 2 → cost (clean m) m ≡ 0 };

    // A clean reading costs something for the other mark.
    ghost clean_dear: { (m : ℕ) → m < 2 → 1 ≤ cost (clean m) (1 - m) };
}

// A hard reading is a mark, or absent.
impl Reading for Option<bool> {
    ghost cost = { hard_cost };

    ghost clean = { clean_hard };

    ghost bounded = { hard_bounded };

    ghost one_free = { hard_free };

    ghost clean_free = { λ m h. clean_hard-free m };

    ghost clean_dear = { clean_hard-dear };

    // 1 for the other mark.
    fn costs(&self) -> (u8, u8) {
        match *self {
            Some(mark) => (mark as u8, !mark as u8),
            None => (0, 0),
        }
    }
}

// A soft reading leans to mark 0 above zero, and to mark 1 below.
impl Reading for i8 {
    ghost cost = { soft_cost };

    ghost clean = { clean_soft };

    ghost bounded = { soft_bounded };

    ghost one_free = { soft_free };

    ghost clean_free = { λ m h. clean_soft-free m };

    ghost clean_dear = { clean_soft-dear };

    // Its size for the mark that it leans away from.
    fn costs(&self) -> (u8, u8)
        ensures marks { (result.0 ≡ soft_cost self.now 0) × (result.1 ≡ soft_cost self.now 1) }
        ensures size { result.0 + result.1 ≡ unsigned_abs self.now }
    {
        let size = self.unsigned_abs();
        if *self > 0 { (0, size) } else { (size, 0) }
    }
}
