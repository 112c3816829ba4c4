// A form with the field that is to be read by it.
ghost use Rattle.std.specs.Prelude.{◌≡◌, ◌≤◌, ◌<◌, ltb, length, MatchOption};
ghost use Rattle.rules.specs.Words.{count};
ghost use Rattle.rules.specs.Roles.{is_digit};
ghost use Rattle.rules.specs.Shape.{most_digits};

use roles::is_digit;
use rules::{FormRef, Picture};

// What a field of a value has: a character for each position, and no more digits than a picture may have.
#[derive(Clone, Copy)]
pub(crate) struct Asked<'a> {
    pub form: FormRef<'a>,
    pub field: &'a [u8],
    ghost long: { length field.now ≡ length form.roles.now },
    ghost few: { count is_digit form.roles.now ≤ most_digits },
}

impl<'a> Asked<'a> {
    // None where no value can have the field.
    pub(crate) fn new(form: FormRef<'a>, field: &'a [u8]) -> Option<Asked<'a>>
        ensures { MatchOption result (length field.now ≡ length form.entry.roles.now → most_digits < count is_digit form.entry.roles.now) (λ a. (a.form ≡ form.entry) × (a.field.now ≡ field.now)) }
    {
        if field.len() != form.roles.len() || is_many(form.roles) {
            return None;
        }
        Some(Asked { form, field })
    }
}

// Whether the digits are more than a picture may have. Where there are few positions nothing is looked at;
// else it is from the end, where most of what is no digit stands, until enough of that has been found.
fn is_many(roles: &[u8]) -> bool
    ensures { result ≡ ltb most_digits (count is_digit roles.now) }
{
    Picture::MOST_DIGITS < roles.len()
        && roles
            .iter()
            .rev()
            .filter(|role| !is_digit(**role))
            .nth(roles.len() - Picture::MOST_DIGITS - 1)
            .is_none()
}
