// The bytes of a plan, once every refusal is settled.
ghost use Rattle.std.specs.Prelude.{◌≡◌, [], ◌∷◌, length};
ghost use Rattle.std.proofs.lemmas.List.Edits.{sets};
ghost use Rattle.rules.specs.Form.{form_in};
ghost use Rattle.rules.specs.Layout.{forms, pictures, plan_of};
ghost use Rattle.layout.specs.Passes.{FormFits, Fits, Settled, fields_in};

use super::cutting::Pictures;
use super::measuring::Extent;
use picture::verdict::judged_form;
use rules::FormRef;

// RULES 5.3: a form's header of three bytes, n, the positions before V and the kind, then its roles.
fn put_form(form: FormRef<'_>, plan: &mut [u8], header: usize, at: usize)
    requires { FormFits (form_in form) (length plan.old) header at }
    ensures { plan.new
        ≡ sets (sets plan.old header (length form.entry.roles.now ∷ form.entry.vee ∷ form.entry.kind ∷ [])) at form.entry.roles.now }
{
    plan[header] = form.roles.len() as u8;
    plan[header + 1] = form.vee as u8;
    plan[header + 2] = form.kind;
    copying::put(form.roles, plan, at);
}

// The forms of a layout's pictures, each of which is accepted: their headers from the one place on, their
// roles from the other.
fn put_forms(layout: &[u8], plan: &mut [u8], headers: usize, positions: usize)
    requires { Fits (pictures layout.now) (length plan.old) headers positions }
    ensures { plan.new ≡ fields_in plan.old headers positions (forms layout.now) }
{
    let mut header = headers;
    let mut at = positions;
    for text in Pictures::of(layout) {
        let form = judged_form(text).unwrap();
        put_form(form.lent(), plan, header, at);
        header += 3;
        at += form.size;
    }
}

// The whole plan (RULES 5.3): the count of the positions has two bytes, the high one first.
pub(crate) fn write(layout: &[u8], plan: &mut [u8], extent: Extent)
    requires { Settled layout.now (length plan.old) extent }
    ensures { plan.new ≡ sets plan.old 0 (plan_of (forms layout.now)) }
{
    let at = 3 * extent.count + 1;
    plan[0] = extent.count as u8;
    copying::put(&(extent.width as u16).to_be_bytes(), plan, at);
    put_forms(layout, plan, 1, at + 2);
}
