// What the roles of a form have: the digits on both sides of V and a sign; and whether there is a nine, or a
// sign, as far as they have to be looked at for that.
ghost use Rattle.std.specs.Prelude.{◌≡◌};
ghost use Rattle.rules.specs.Words.{any, count};
ghost use Rattle.rules.specs.Roles.{is_digit, is_nine, is_sign};
ghost use Rattle.rules.specs.Form.{form_in};
ghost use Rattle.rules.specs.Edit.{has_sign};

use roles::{is_digit, is_nine, is_sign, sign_drifts};
use rules::FormRef;

pub(crate) fn digits_in(roles: &[u8]) -> usize
    ensures { result ≡ count is_digit roles.now }
{
    roles.iter().filter(|role| is_digit(**role)).count()
}

// From the end, where the nines stand as a rule.
pub fn any_nine(roles: &[u8]) -> bool
    ensures { result ≡ any is_nine roles.now }
{
    roles.iter().rev().any(|role| is_nine(*role))
}

// A sign stands at one of the ends as a rule: the first position is looked at, and then all from the end.
fn any_sign(roles: &[u8]) -> bool
    ensures { result ≡ any is_sign roles.now }
{
    match roles {
        [first, ..] if is_sign(*first) => true,
        _ => roles.iter().rev().any(|role| is_sign(*role)),
    }
}

// Where a sign drifts the roles aren't looked at.
pub fn is_signed(form: FormRef<'_>) -> bool
    ensures { result ≡ has_sign (form_in form.entry) }
{
    sign_drifts(form.kind) || any_sign(form.roles)
}
