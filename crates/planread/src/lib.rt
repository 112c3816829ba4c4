// A record read by a plan into a row: one value a field, or the first refusal in the order of RULES 6.6. The
// call takes every input and does its own checking. The records of a batch are read here too, since what asks
// for a plan is offered to no other crate.
#![tactic(auto)]

pub mod batch; // batch.rt: the records of a batch, added to a totals sheet
mod run; // run.rt: the fields of a record, one after the other

ghost use Rattle.std.specs.Prelude.{◌≡◌};
ghost use Rattle.rules.specs.Answers.{PlanReadIs};
ghost use Rattle.rules.specs.Refusals.{fields_answer};
ghost use Rattle.planread.specs.Runs.{plan_answer, plan_row};

use plan::Plan;
use rules::{MOST_PICTURES, Refusal, Refused};
use run::run_fields;

// LENGTH, ROOM, then the first field with CONVERSION. It isn't drawn into its callers, so that its row isn't
// on the stack while a plan is judged.
#[inline(never)]
pub(crate) fn read_record(plan: Plan<'_>, record: &[u8], row: &mut [i64]) -> Result<usize, Refused>
    ensures answer { fields_answer result ≡ plan_answer plan.entry.bytes.now «record».now row.old }
    ensures memory { row.new ≡ plan_row plan.entry.bytes.now «record».now row.old }
{
    if record.len() != plan.record_length() {
        return Err(Refusal::Length.into());
    }
    let count = plan.field_count();
    if row.len() < count {
        return Err(Refusal::Room.into());
    }
    let mut values = [0i64; MOST_PICTURES];
    run_fields(plan, record, &mut values)?;
    row[..count].copy_from_slice(&values[..count]);
    Ok(count)
}

// The values that the record's fields say under the plan, one a field in the row's first places; on success
// the number of fields. PLAN is asked first: nothing is read by bytes that no accepted layout has as its
// plan.
pub fn read(plan: &[u8], record: &[u8], row: &mut [i64]) -> Result<usize, Refused>
    ensures { PlanReadIs plan.now «record».now row.old (fields_answer result) row.new }
{
    read_record(Plan::new(plan)?, record, row)
}
