ghost use Rattle.spreads.specs.Quotient.{Quotient};

/// 720720, the least number that each length from 1 to 16 divides, by the length.
const QUOTIENTS: [u32; 16] = [
    720720, 360360, 240240, 180180, 144144, 120120, 102960, 90090, 80080, 72072, 65520, 60060,
    55440, 51480, 48048, 45045,
];

/// 720720 by the length of a ticket; 0 for a number that is no such length.
pub fn quotient(length: u8) -> u32
    ensures { Quotient length result }
{
    // A number and not an `Option`: each caller has the length of a ticket, and would only unwrap it.
    if !(1..=16).contains(&length) {
        return 0;
    }
    QUOTIENTS[usize::from(length) - 1]
}
