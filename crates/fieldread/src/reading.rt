// The value that has a field: what its digits are worth, with the sign under which the field is that value's.
// Beside the one pass of zones.rt the roles are looked at only for a nine at the value 0, and for a sign
// where what prints is that of minus.
ghost use Rattle.std.specs.Prelude.{◌≡◌, false, get_or, length};
ghost use Rattle.rules.specs.Words.{same};
ghost use Rattle.rules.specs.Search.{up_to};
ghost use Rattle.rules.specs.Form.{form_in};
ghost use Rattle.rules.specs.Edit.{field as field_of, suppressed};
ghost use Rattle.rules.specs.Candidate.{read_of, option_of, worth_of};
ghost use Rattle.fieldread.specs.Zones.{sides_of};

use super::asked::Asked;
use super::zones::Said;
use field::survey::{any_nine, is_signed};
use roles::marks::suppressed_of;

impl Asked<'_> {
    // Whether every position shows what a hidden one does.
    fn is_all_hidden(&self) -> bool
        ensures { result ≡ same (up_to (length self.now.form.roles.now) (λ k. suppressed self.now.form.kind (get_or self.now.form.roles.now k 0))) self.now.field.now }
    {
        let kind = self.form.kind;
        self.form
            .roles
            .iter()
            .zip(self.field)
            .all(|(role, c)| *c == suppressed_of(kind, *role))
    }

    // Whether the field is that of the value with plus. Zero without a nine is all hidden.
    fn is_plus(&self, sides: Said) -> bool
        requires { sides ≡ sides_of (form_in self.now.form) self.now.field.now }
        ensures { result ≡ same (field_of (form_in self.now.form) false (worth_of (form_in self.now.form) self.now.field.now)) self.now.field.now }
    {
        if sides.value == 0 && !any_nine(self.form.roles) {
            return self.is_all_hidden();
        }
        sides.plus
    }

    // The value with the sign that the field tells. Plus comes first, so that a field that tells none has it.
    // What the digits of a picture are worth fits the signed number.
    fn settled(&self, sides: Said) -> Option<i64>
        requires { sides ≡ sides_of (form_in self.now.form) self.now.field.now }
        ensures { result ≡ option_of (read_of (form_in self.now.form) self.now.field.now) }
    {
        let value = sides.value as i64;
        if self.is_plus(sides) {
            return Some(value);
        }
        if sides.value == 0 || !sides.minus || !is_signed(self.form) {
            return None;
        }
        Some(-value)
    }

    pub(crate) fn value(&self) -> Option<i64>
        ensures { result ≡ option_of (read_of (form_in self.now.form) self.now.field.now) }
    {
        let led = self.lead();
        let hidden = self.hide(led.at)?;
        self.settled(self.compared(led, hidden))
    }
}
