// One value against one form: whether it is in range and fits, and the sign and the aligned magnitude that
// its field shows.
#![tactic(auto)]

pub mod own; // own.rt: a value at the form's own scale

ghost use Rattle.std.specs.Prelude.{◌≡◌};
ghost use Rattle.rules.specs.Form.{form_in};
ghost use Rattle.value.specs.Settling.{settled_of};

use decimal::align::align;
use decimal::sign::{Signed, split};
use field::measure;
use rules::{FormRef, Picture, Refusal, Rounding};

// M at scale q, rounded or cut: VALUE and SIZE in their order (RULES 6.6). The range is judged before the
// magnitude is taken, and SIZE of the aligned magnitude. It isn't drawn into its caller, so that the powers of
// ten aren't on the stack while a field is written.
#[tactic(auto, using(crate::proofs::Ways::ways))]
#[inline(never)]
pub fn settle(rounding: Rounding, form: FormRef<'_>, m: i64, q: usize) -> Result<Signed, Refusal>
    ensures { result ≡ settled_of rounding (form_in form.entry) m q }
{
    let Some(signed) = split(m) else {
        return Err(Refusal::Value);
    };
    if Picture::MOST_SCALE < q {
        return Err(Refusal::Value);
    }
    let measured = measure(form);
    let (whole, places) = (measured.whole, measured.places);
    let Some(magnitude) = align(rounding, signed.magnitude, q, whole, places) else {
        return Err(Refusal::Size);
    };
    let negative = signed.negative && magnitude != 0;
    if negative && !measured.signed {
        return Err(Refusal::Size);
    }
    Ok(Signed {
        negative,
        magnitude,
    })
}
