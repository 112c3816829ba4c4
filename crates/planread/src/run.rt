// The fields of a record, one after the other, each by its part of the plan. What they say goes to a row of
// the runner's own: the caller's is not touched before the last of them has been read.
ghost use Rattle.std.specs.Prelude.{◌≡◌, length};
ghost use Rattle.rules.specs.Layout.{record_length};
ghost use Rattle.rules.specs.PlanBytes.{forms_in};
ghost use Rattle.rules.specs.Candidate.{read_all};
ghost use Rattle.planread.specs.Runs.{ran_from};

use plan::Plan;
use rules::{MOST_PICTURES, Refusal, Refused};

// Each value goes to its field's place, up to the first field that says nothing.
pub(crate) fn run_fields(
    plan: Plan<'_>,
    record: &[u8],
    values: &mut [i64; MOST_PICTURES],
) -> Result<(), Refused>
    requires { length «record».now ≡ record_length (forms_in plan.bytes.now) }
    ensures { record { outcome = result; values = values.new } ≡ ran_from 0 values.old (read_all (forms_in plan.entry.bytes.now) «record».now) }
{
    let mut rest = record;
    for (i, form) in plan.forms().enumerate() {
        let (field, behind) = rest.split_at(form.roles.len());
        let Some(m) = fieldread::read(form, field) else {
            return Err(Refused {
                refusal: Refusal::Conversion,
                field: i as u8 + 1,
            });
        };
        values[i] = m;
        rest = behind;
    }
    Ok(())
}
