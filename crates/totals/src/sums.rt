// Sums that may not wrap: a sum is judged before it is added to. And the lesser and the greater of two
// numbers.
ghost use Rattle.std.specs.Prelude.{◌≡◌, ◌&&◌, ◌≤◌, ◌+ℤ◌, length};
ghost use Rattle.rules.specs.Layout.{most_pictures};
ghost use Rattle.totals.specs.Totals.{greater, lesser, place_numbers, sum_fits};
ghost use Rattle.totals.specs.Steps.{first_bad};

use rules::MOST_PICTURES;

// The first magnitude of a sum that is too big (RULES 9.6). This is a limit of its own: a picture's digits
// may go by another number.
const LIMIT: u64 = 1_000_000_000_000_000_000;

#[tactic(auto, unfolding(crate::specs::Totals::sum_fits))]
fn lies_within(sum: i64) -> bool
    ensures { result ≡ sum_fits sum }
{
    sum.unsigned_abs() < LIMIT
}

// Whether the sum handed in lies within, and the sum that m brings.
#[tactic(auto, using(crate::proofs::Signed::brings))]
fn fits(sum: i64, m: i64) -> bool
    ensures { result ≡ (sum_fits sum && sum_fits (sum +ℤ m)) }
{
    lies_within(sum) && sum.checked_add(m).is_some_and(lies_within)
}

// A line each, since a function that is handed `min` or `max` would be no plainer.
#[tactic(auto, using(crate::proofs::Signed::bounds))]
pub(crate) fn lesser(first: bool, old: i64, m: i64) -> i64
    ensures { result ≡ lesser first old m }
{
    if first { m } else { old.min(m) }
}

#[tactic(auto, using(crate::proofs::Signed::bounds))]
pub(crate) fn greater(first: bool, old: i64, m: i64) -> i64
    ensures { result ≡ greater first old m }
{
    if first { m } else { old.max(m) }
}

// The first place, from 0, whose sum is too big, handed in or brought. The sums go by value: where they are
// lent, a compiler keeps the sheet twice on the stack.
pub(crate) fn first_over(sums: [i64; MOST_PICTURES], row: &[i64]) -> Option<usize>
    requires { length row.now ≤ most_pictures }
    ensures { result ≡ first_bad (place_numbers sums row.now) }
{
    sums.iter().zip(row).position(|(sum, m)| !fits(*sum, *m))
}
