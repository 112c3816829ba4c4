// One field of one form: what a value's characters are. Each call answers for every input, also for a form
// that is no picture's.
#![tactic(auto)]

mod reach; // reach.rt: where positions can be hidden
pub mod survey; // survey.rt: what the roles have, in one pass or less
mod writing; // writing.rt: the characters of a field, written into lent bytes

ghost use Rattle.std.specs.Prelude.{◌≡◌};
ghost use Rattle.rules.specs.Form.{form_in};
ghost use Rattle.copying.specs.Copy.{copied};
ghost use Rattle.field.specs.Results.{field_by, measure_of};

use decimal::sign::Signed;
use roles::sign_drifts;
use roles::table::Characters;
use rules::FormRef;
use survey::{any_nine, digits_in, is_signed};
use writing::Writer;

// The digits before and after V, and whether the form has a sign.
#[derive(Clone, Copy)]
pub struct Measured {
    pub whole: usize,
    pub places: usize,
    pub signed: bool,
}

pub fn measure(form: FormRef<'_>) -> Measured
    ensures { result ≡ measure_of (form_in form.entry) }
{
    let before = form.vee.min(form.roles.len());
    let (whole, places) = form.roles.split_at(before);
    Measured {
        whole: digits_in(whole),
        places: digits_in(places),
        signed: is_signed(form),
    }
}

// The field of a signed number at the form's own scale, by a table of characters, into the bytes of `out`
// from byte `from` on; nothing where it doesn't fit. Of a magnitude with more digits than the form the last
// ones print, and nothing is hidden.
pub fn put(table: &Characters, form: FormRef<'_>, signed: Signed, out: &mut [u8], from: usize)
    ensures memory { out.new ≡ copied (field_by table.now (form_in form.entry) signed.negative signed.magnitude) from out.old }
{
    let size = form.roles.len();
    if out.len() < size || out.len() - size < from {
        return;
    }
    let field = &mut out[from..from + size];
    let writer = Writer {
        table,
        form,
        negative: signed.negative,
    };
    if signed.magnitude == 0 && !any_nine(form.roles) {
        writer.put_blank(field);
    } else {
        writer.put_shown(signed.magnitude, field);
    }
}
