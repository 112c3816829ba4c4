// The rules of shape, judged in one pass over the roles of a form: of a picture whether its shape is right
// and its digits fit, of a plan's field whether any accepted picture has it. The rules themselves are those
// of the crate rules. The pass is a machine, whose phase holds what the next roles ask of those before, and a
// sum of weights, which holds what the rules count.
#![tactic(auto)]

pub mod machine; // machine.rt: the pass, by the judge's two tables
mod tables; // tables.rt: the tables' entries

ghost use Rattle.std.specs.Prelude.{◌≡◌};
ghost use Rattle.rules.specs.Form.{form_in};
ghost use Rattle.rules.specs.Good.{good};
ghost use Rattle.shape.specs.Judge.{judged_of};

use machine::Judge;
use rules::FormRef;

// What the pass finds of a form. Of one with more than 64 positions neither holds. Both are read: neither
// says whether the other counts.
#[derive(Clone, Copy)]
pub struct Judged {
    // every rule holds, but for that on the number of digits
    pub shaped: bool,
    // 1 digit at least, and no more than a picture may have
    pub digits: bool,
}

// What the rules say of the form.
#[tactic(auto, using(crate::proofs::Found::found_judged))]
pub fn judge(form: FormRef<'_>) -> Judged
    ensures { result ≡ judged_of (form_in form.entry) }
{
    Judge::new().judge(form)
}

// Whether some accepted picture has this form.
#[tactic(auto, using(crate::proofs::Found::found_good))]
pub fn is_good(form: FormRef<'_>) -> bool
    ensures { result ≡ good (form_in form.entry) }
{
    Judge::new().is_good(form)
}
