// A magnitude moved from one scale to another, rounded or cut, with no number over 64 bits on the way.
ghost use Rattle.std.specs.Prelude.{◌≡◌, ◌^◌, ◌≤◌, ◌<◌};
ghost use Rattle.rules.specs.Shape.{most_digits};
ghost use Rattle.rules.specs.Edit.{quotient};
ghost use Rattle.decimal.specs.Align.{aligned_of};

use rules::{Picture, Rounding};

// By a power of ten. Twice what is left of the division stays below twice the largest power.
#[tactic(auto, using(rules::proofs::Quotient::half_up, rules::proofs::Quotient::less_off, rules::proofs::Quotient::cut_off))]
fn divided(rounding: Rounding, magnitude: u64, power: u64) -> u64
    requires magnitude_bound { magnitude < 10 ^ most_digits }
    requires power_nonzero { 0 < power }
    requires power_bound { power ≤ 10 ^ most_digits }
    ensures { result ≡ quotient rounding magnitude power }
{
    let down = magnitude / power;
    let rest = magnitude % power;
    let rounds_up = match rounding {
        Rounding::HalfAway => power <= 2 * rest,
        Rounding::Cut => false,
    };
    down + u64::from(rounds_up)
}

// None where the digits do not hold the number, or an argument is out of range. Size is settled before a
// product is taken, and behind a division, since rounding may bring one digit more.
#[tactic(auto, using(crate::proofs::Aligning::ways))]
pub fn align(
    rounding: Rounding,
    magnitude: u64,
    q: usize,
    whole: usize,
    places: usize,
) -> Option<u64>
    ensures { result ≡ aligned_of rounding magnitude q whole places }
{
    if Picture::LIMIT <= magnitude || Picture::MOST_SCALE < q {
        return None;
    }
    if Picture::MOST_DIGITS < whole || Picture::MOST_DIGITS - whole < places {
        return None;
    }
    // named once, since a use of the table copies it
    let powers = Picture::POWERS;
    if q <= places {
        if powers[whole + q] <= magnitude {
            return None;
        }
        let t = magnitude * powers[places - q];
        return Some(t);
    }
    let t = divided(rounding, magnitude, powers[q - places]);
    if powers[whole + places] <= t {
        return None;
    }
    Some(t)
}
