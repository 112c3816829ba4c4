// The refusals of a picture text, in the order of RULES 2.14: its bytes, its symbols, their number, its
// shape, its digits.
ghost use Rattle.std.specs.Prelude.{◌≡◌, true, IfOk};
ghost use Rattle.rules.specs.Text.{held_in};
ghost use Rattle.rules.specs.Form.{meaning};
ghost use Rattle.rules.specs.Shape.{verdict, picture_of};
ghost use Rattle.rules.specs.Refusals.{result_number};
ghost use Rattle.rules.proofs.Expand.{spelled};
ghost use Rattle.form.specs.Rooms.{meaning_of};
ghost use Rattle.picture.specs.Verdicts.{shape_number};

use form::{Meaning, form_of, one_suppresses, one_v};
use rules::{Picture, Refusal};

// SHAPE or DIGITS, of symbols that a text gave. The rules that speak of digits, signs and static symbols, and
// the number of digits, are judged in one pass over the roles.
fn judge_symbols(picture: Picture) -> Result<(), Refusal>
    requires { spelled (held_in picture) ≡ true }
    ensures { result_number result ≡ shape_number (held_in picture) }
{
    if !one_v(picture) || !one_suppresses(picture) {
        return Err(Refusal::Shape);
    }
    let judged = shape::judge(form_of(picture).lent());
    if !judged.shaped {
        return Err(Refusal::Shape);
    }
    if !judged.digits {
        return Err(Refusal::Digits);
    }
    Ok(())
}

// The symbols of an accepted text.
pub fn judge(text: &[u8]) -> Result<Picture, Refusal>
    ensures number { result_number result ≡ verdict text.now }
    ensures picture { IfOk result (λ picture. picture ≡ picture_of text.now) }
{
    let picture = text::expand(text)?;
    judge_symbols(picture)?;
    Ok(picture)
}

// The form that an accepted text means.
pub fn judged_form(text: &[u8]) -> Result<Meaning, Refusal>
    ensures number { result_number result ≡ verdict text.now }
    ensures form { IfOk result (λ form. form ≡ meaning_of (meaning text.now)) }
{
    let picture = judge(text)?;
    Ok(form_of(picture))
}
