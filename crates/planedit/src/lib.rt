// A row edited by a plan into a record. Every refusal is settled before the first byte is written, so that a
// refusal changes nothing: one pass judges each value against its field, another writes the fields straight
// into the lent bytes.
#![tactic(auto)]

ghost use Rattle.std.specs.Prelude.{◌≡◌, ◌++◌, length, drop};
ghost use Rattle.rules.specs.PlanBytes.{forms_in};
ghost use Rattle.rules.specs.Refusals.{fields_answer};
ghost use Rattle.rules.specs.Answers.{edit_verdicts, record_of, PlanEditIs, RowIs};
ghost use Rattle.rules.proofs.PlanWalk.{field_count};
ghost use Rattle.planedit.specs.Rows.{Ready, bad_in, bad_of};

use decimal::sign::Signed;
use plan::Plan;
use roles::table::character_table;
use rules::{Picture, Refusal, Refused};
use value::own::judge_own;

// RULES 6.6: the first field that has VALUE or SIZE, and of one field VALUE first. It isn't drawn into its
// callers, so that the powers of ten aren't on the stack while a plan is judged or a field is written.
#[inline(never)]
fn judge_row(plan: Plan<'_>, row: &[i64]) -> Result<(), Refused>
    requires { length row.now ≡ field_count plan.bytes.now }
    ensures { bad_in result ≡ bad_of (edit_verdicts (forms_in plan.entry.bytes.now) row.now) }
{
    let powers = Picture::POWERS;
    for (i, (form, m)) in plan.forms().zip(row).enumerate() {
        if let Err(refusal) = judge_own(&powers, form, *m) {
            return Err(Refused {
                refusal,
                field: i as u8 + 1,
            });
        }
    }
    Ok(())
}

// The fields of the row's values, one after the other from the first byte of `out` on.
fn put_record(plan: Plan<'_>, row: &[i64], out: &mut [u8])
    requires { Ready plan.bytes.now row.now out.old }
    ensures { out.new ≡ record_of (forms_in plan.entry.bytes.now) row.now ++ drop (length (record_of (forms_in plan.entry.bytes.now) row.now)) out.old }
{
    let table = character_table();
    let mut from: usize = 0;
    for (form, m) in plan.forms().zip(row) {
        field::put(&table, form, Signed::from(*m), out, from);
        from += form.roles.len();
    }
}

// LENGTH, the first bad field, ROOM.
fn edit_row(plan: Plan<'_>, row: &[i64], out: &mut [u8]) -> Result<usize, Refused>
    ensures { RowIs (forms_in plan.entry.bytes.now) row.now out.old (fields_answer result) out.new }
{
    if row.len() != plan.field_count() {
        return Err(Refusal::Length.into());
    }
    judge_row(plan, row)?;
    let length = plan.record_length();
    if out.len() < length {
        return Err(Refusal::Room.into());
    }
    put_record(plan, row, out);
    Ok(length)
}

// A row edited by a plan into the first bytes of `out`; on success the record length. PLAN comes before all
// else.
pub fn edit(plan: &[u8], row: &[i64], out: &mut [u8]) -> Result<usize, Refused>
    ensures { PlanEditIs plan.now row.now out.old (fields_answer result) out.new }
{
    edit_row(Plan::new(plan)?, row, out)
}
