// A signed number as a sign and a magnitude.
ghost use Rattle.std.specs.Prelude.{◌≡◌, nat_abs};
ghost use Rattle.rules.specs.Edit.{is_negative};
ghost use Rattle.decimal.specs.Sign.{parts_of};

use rules::Picture;

#[derive(Clone, Copy, PartialEq, Eq)]
pub struct Signed {
    pub negative: bool,
    pub magnitude: u64,
}

// Of any number: the least one has no counterpart among the signed, but a magnitude.
impl From<i64> for Signed {
    ghost from_gives = { λ m signed. signed ≡ record { negative = is_negative m; magnitude = nat_abs m } };

    fn from(m: i64) -> Signed {
        Signed {
            negative: m < 0,
            magnitude: m.unsigned_abs(),
        }
    }
}

// None where the number is as far from zero as the limit or further (RULES 3.1).
#[tactic(auto, unfolding(crate::specs::Sign::parts_of))]
pub fn split(m: i64) -> Option<Signed>
    ensures { result ≡ parts_of m }
{
    let signed = Signed::from(m);
    if Picture::LIMIT <= signed.magnitude {
        return None;
    }
    Some(signed)
}
