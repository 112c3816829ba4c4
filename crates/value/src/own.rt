// A value at the form's own scale, where the aligned magnitude is the magnitude itself: whether it is
// refused. A plan's fields ask for no more.
ghost use Rattle.std.specs.Prelude.{◌≡◌, ◌≤◌, length, sum_by};
ghost use Rattle.std.specs.Int.{from_bool};
ghost use Rattle.rules.specs.Roles.{is_digit};
ghost use Rattle.rules.specs.Form.{form_in};
ghost use Rattle.rules.specs.Text.{most_symbols};
ghost use Rattle.rules.specs.Refusals.{result_number};
ghost use Rattle.value.specs.Settling.{own_number};

use decimal::sign::Signed;
use field::survey::is_signed;
use roles::is_digit;
use rules::{FormRef, Picture, Powers, Refusal};

// The digits, counted in a byte: a compiler then counts many positions at once.
fn digits_in(roles: &[u8]) -> u8
    requires { length roles.now ≤ most_symbols }
    ensures { result ≡ sum_by (λ role. from_bool (is_digit role)) roles.now }
{
    roles.iter().map(|role| u8::from(is_digit(*role))).sum()
}

// VALUE or SIZE. The powers of ten are lent, since naming their table copies it; SIZE is one comparison with
// one of them. A form with more positions or digits than a picture may have takes no value.
#[tactic(auto, using(crate::proofs::OwnScale::ways))]
pub fn judge_own(powers: &Powers, form: FormRef<'_>, m: i64) -> Result<(), Refusal>
    ensures { result_number result ≡ own_number powers.now (form_in form.entry) m }
{
    let signed = Signed::from(m);
    if Picture::LIMIT <= signed.magnitude {
        return Err(Refusal::Value);
    }
    if Picture::MOST_SYMBOLS < form.roles.len() {
        return Err(Refusal::Size);
    }
    let digits = usize::from(digits_in(form.roles));
    if Picture::MOST_DIGITS < digits || powers[digits] <= signed.magnitude {
        return Err(Refusal::Size);
    }
    if signed.negative && !is_signed(form) {
        return Err(Refusal::Size);
    }
    Ok(())
}
