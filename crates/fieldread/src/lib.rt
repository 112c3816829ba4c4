// One field of one form, read: the one value that has it, if any has. The call answers for every input.
#![tactic(auto)]

mod asked; // asked.rt: a form with a field of its length
mod reading; // reading.rt: the value, with the sign under which the field is that value's
mod zones; // zones.rt: a field in one pass

ghost use Rattle.std.specs.Prelude.{◌≡◌};
ghost use Rattle.rules.specs.Form.{form_in};
ghost use Rattle.fieldread.specs.Results.{read_in};

use asked::Asked;
use rules::FormRef;

// The one value that has this field, if any has. A field of another length has none.
pub fn read(form: FormRef<'_>, field: &[u8]) -> Option<i64>
    ensures { result ≡ read_in (form_in form.entry) field.now }
{
    Asked::new(form, field)?.value()
}
