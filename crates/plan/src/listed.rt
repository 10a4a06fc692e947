// The listed plans.
ghost use Rattle.std.specs.Prelude.{◌≡◌, ◌==◌};
ghost use Rattle.std.specs.List.{find};
ghost use Rattle.std.specs.Option.{option_copied};
ghost use Rattle.plan.specs.Listed.{listed, laid};

use crate::plan::Plan;

// The randomiser's seed on the air link.
const SEED: usize = 0x4a80;

// A listed plan: its number, its eleven numbers in their order, and the unit at which the randomiser starts anew.
#[derive(Clone, Copy, Debug, PartialEq, Eq)]
pub struct Listed(pub u8, pub [usize; 11], pub usize);

// Every listed plan.
const LISTED: [Listed; 69] = [
    Listed(1, [1, 1, 2, 1, 1, 0, 0, 0, 0, 0, 0], 2),
    Listed(2, [2, 120, 6, 72, 10, 0, 0, 0, 0, 0, 0], 432),
    Listed(3, [1, 1, 1, 1, 1, 0, 0, 1, 1, 6, 10], 1),
    Listed(16, [1, 1, 1, 66, 4, SEED, 0, 1, 1, 43, 28], 66),
    Listed(17, [1, 1, 1, 125, 7, SEED, 0, 1, 1, 40, 56], 125),
    Listed(18, [1, 1, 6, 91, 5, SEED, 0, 1, 1, 132, 74], 91),
    Listed(19, [1, 1, 9, 91, 5, SEED, 0, 1, 1, 111, 132], 91),
    Listed(20, [1, 1, 6, 120, 7, SEED, 0, 1, 2, 132, 74], 120),
    Listed(21, [1, 1, 9, 120, 7, SEED, 0, 1, 2, 111, 132], 120),
    Listed(22, [1, 1, 6, 135, 8, SEED, 0, 1, 3, 132, 74], 135),
    Listed(23, [1, 1, 9, 135, 8, SEED, 0, 1, 3, 111, 132], 135),
    Listed(24, [1, 1, 6, 182, 10, SEED, 0, 1, 1, 132, 148], 182),
    Listed(25, [1, 1, 9, 182, 10, SEED, 0, 1, 1, 132, 222], 182),
    Listed(26, [1, 1, 12, 121, 7, SEED, 0, 1, 2, 132, 148], 242),
    Listed(28, [1, 1, 12, 136, 8, SEED, 0, 1, 1, 132, 222], 272),
    Listed(30, [1, 1, 12, 183, 10, SEED, 0, 1, 2, 132, 222], 366),
    Listed(32, [1, 1, 12, 206, 11, SEED, 0, 1, 3, 132, 222], 412),
    Listed(36, [1, 1, 1, 14, 1, SEED, 0, 1, 1, 67, 4], 14),
    Listed(37, [1, 1, 1, 28, 2, SEED, 0, 1, 1, 67, 8], 14),
    Listed(38, [1, 1, 1, 42, 3, SEED, 0, 1, 1, 67, 12], 14),
    Listed(39, [1, 1, 1, 56, 5, SEED, 0, 1, 1, 67, 16], 14),
    Listed(40, [1, 1, 1, 70, 6, SEED, 0, 1, 1, 67, 20], 14),
    Listed(41, [1, 1, 1, 84, 7, SEED, 0, 1, 1, 67, 24], 14),
    Listed(42, [1, 1, 1, 98, 9, SEED, 0, 1, 1, 67, 28], 14),
    Listed(43, [1, 1, 1, 112, 10, SEED, 0, 1, 1, 67, 32], 14),
    Listed(44, [1, 1, 1, 126, 12, SEED, 0, 1, 1, 67, 36], 14),
    Listed(45, [1, 1, 1, 140, 13, SEED, 0, 1, 1, 67, 40], 14),
    Listed(46, [1, 1, 1, 19, 1, SEED, 0, 1, 2, 67, 4], 19),
    Listed(47, [1, 1, 1, 38, 2, SEED, 0, 1, 2, 67, 8], 19),
    Listed(48, [1, 1, 1, 57, 4, SEED, 0, 1, 2, 67, 12], 19),
    Listed(49, [1, 1, 1, 76, 6, SEED, 0, 1, 2, 67, 16], 19),
    Listed(50, [1, 1, 1, 95, 7, SEED, 0, 1, 2, 67, 20], 19),
    Listed(51, [1, 1, 1, 114, 9, SEED, 0, 1, 2, 67, 24], 19),
    Listed(52, [1, 1, 1, 133, 11, SEED, 0, 1, 2, 67, 28], 19),
    Listed(53, [1, 1, 1, 152, 12, SEED, 0, 1, 2, 67, 32], 19),
    Listed(54, [1, 1, 1, 171, 14, SEED, 0, 1, 2, 67, 36], 19),
    Listed(55, [1, 1, 1, 190, 16, SEED, 0, 1, 2, 67, 40], 19),
    Listed(56, [1, 1, 1, 22, 1, SEED, 0, 1, 3, 67, 4], 22),
    Listed(57, [1, 1, 1, 44, 2, SEED, 0, 1, 3, 67, 8], 22),
    Listed(58, [1, 1, 1, 66, 4, SEED, 0, 1, 3, 67, 12], 22),
    Listed(59, [1, 1, 1, 88, 5, SEED, 0, 1, 3, 67, 16], 22),
    Listed(60, [1, 1, 1, 110, 7, SEED, 0, 1, 3, 67, 20], 22),
    Listed(61, [1, 1, 1, 132, 9, SEED, 0, 1, 3, 67, 24], 22),
    Listed(62, [1, 1, 1, 154, 10, SEED, 0, 1, 3, 67, 28], 22),
    Listed(63, [1, 1, 1, 176, 12, SEED, 0, 1, 3, 67, 32], 22),
    Listed(64, [1, 1, 1, 198, 13, SEED, 0, 1, 3, 67, 36], 22),
    Listed(65, [1, 1, 1, 220, 15, SEED, 0, 1, 3, 67, 40], 22),
    Listed(66, [1, 1, 1, 28, 2, SEED, 0, 1, 1, 67, 8], 28),
    Listed(67, [1, 1, 1, 56, 5, SEED, 0, 1, 1, 67, 16], 28),
    Listed(68, [1, 1, 1, 84, 7, SEED, 0, 1, 1, 67, 24], 28),
    Listed(69, [1, 1, 1, 112, 10, SEED, 0, 1, 1, 67, 32], 28),
    Listed(70, [1, 1, 1, 140, 13, SEED, 0, 1, 1, 67, 40], 28),
    Listed(71, [1, 1, 1, 168, 16, SEED, 0, 1, 1, 67, 48], 28),
    Listed(73, [1, 1, 1, 39, 2, SEED, 0, 1, 2, 67, 8], 39),
    Listed(74, [1, 1, 1, 78, 5, SEED, 0, 1, 2, 67, 16], 39),
    Listed(75, [1, 1, 1, 117, 8, SEED, 0, 1, 2, 67, 24], 39),
    Listed(76, [1, 1, 1, 156, 10, SEED, 0, 1, 2, 67, 32], 39),
    Listed(77, [1, 1, 1, 195, 13, SEED, 0, 1, 2, 67, 40], 39),
    Listed(78, [1, 1, 1, 45, 2, SEED, 0, 1, 1, 67, 12], 45),
    Listed(79, [1, 1, 1, 90, 4, SEED, 0, 1, 1, 67, 24], 45),
    Listed(80, [1, 1, 1, 135, 7, SEED, 0, 1, 1, 67, 36], 45),
    Listed(81, [1, 1, 1, 180, 10, SEED, 0, 1, 1, 67, 48], 45),
    Listed(82, [1, 1, 1, 225, 12, SEED, 0, 1, 1, 67, 60], 45),
    Listed(83, [1, 1, 1, 60, 3, SEED, 0, 1, 2, 67, 12], 60),
    Listed(84, [1, 1, 1, 120, 6, SEED, 0, 1, 2, 67, 24], 60),
    Listed(85, [1, 1, 1, 180, 10, SEED, 0, 1, 2, 67, 36], 60),
    Listed(86, [1, 1, 1, 66, 4, SEED, 0, 1, 3, 67, 12], 66),
    Listed(87, [1, 1, 1, 132, 9, SEED, 0, 1, 3, 67, 24], 66),
    Listed(88, [1, 1, 1, 198, 13, SEED, 0, 1, 3, 67, 36], 66),
];

// The row with this number.
fn row(rows: &[Listed], number: u8) -> Option<&Listed>
    ensures { option_copied result ≡ find (λ row. row.0 == number) rows.now }
{
    rows.iter().find(|row| row.0 == number)
}

// The listed plan with this number.
pub fn listed_plan(number: u8) -> Option<Plan>
    ensures { laid result ≡ listed number }
{
    let &Listed(_, numbers, unit) = row(&LISTED, number)?;
    Some(Plan::in_units(numbers.into(), unit))
}
