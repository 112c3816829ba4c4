// The records of a batch (RULES 9): handed over one after the other, and added to a totals sheet. A plan is
// judged once a call, for a whole batch too; behind that each record is read as `read_record` reads it.
ghost use Rattle.std.specs.Prelude.{◌≡◌, ◌≤◌, ◌+◌, ◌*◌};
ghost use Rattle.rules.specs.Layout.{record_length};
ghost use Rattle.rules.specs.PlanBytes.{forms_in};
ghost use Rattle.rules.specs.Refusals.{fields_answer};
ghost use Rattle.totals.specs.Batch.{NextIs, handed, most_batch, next_at, placed};
ghost use Rattle.totals.specs.Totals.{AddIs, RecordAddIs, added_in};
ghost use Rattle.totals.specs.History.{Along, batched_in, goes_on};
ghost use Rattle.planread.specs.Runs.{plan_added, plan_placed};

use super::read_record;
use plan::Plan;
use rules::{MOST_PICTURES, Refusal, Refused};
use totals::{Added, Batched, Bounds, MOST_BATCH, MOST_RECORDS, Sheet};

// RULES 9.2, with records of so many bytes.
#[tactic(auto, unfolding(totals::specs::Batch::placed, totals::specs::Batch::whole_in))]
fn is_placed(size: usize, len: usize, place: usize) -> bool
    requires { 1 ≤ size }
    ensures { result ≡ placed size len place }
{
    len <= MOST_BATCH && len % size == 0 && place <= len && place % size == 0
}

// By the record length, the batch's length and the place.
fn next_of(size: usize, len: usize, place: usize) -> Result<Option<Bounds>, Refusal>
    requires { (1 ≤ size) × (size ≤ most_batch) }
    ensures { handed result ≡ next_at size len place }
{
    if !is_placed(size, len, place) {
        return Err(Refusal::Length);
    }
    if place == len {
        return Ok(None);
    }
    Ok(Some(Bounds {
        from: place,
        to: place + size,
    }))
}

// The walk over a batch as a run and a place: the record at this place, the end, PLAN or LENGTH.
pub fn next(plan: &[u8], batch: &[u8], place: usize) -> Result<Option<Bounds>, Refusal>
    ensures { NextIs plan.now batch.now place (handed result) }
{
    let plan = Plan::new(plan)?;
    next_of(plan.record_length(), batch.len(), place)
}

// FULL, LENGTH, the first field with CONVERSION, then the first with SIZE. Each field has the place of its
// number in the row and in the sheet.
fn added(plan: Plan<'_>, record: &[u8], sheet: Sheet) -> Added
    ensures { added_in result ≡ plan_added plan.entry.bytes.now «record».now sheet }
{
    if MOST_RECORDS <= sheet.count {
        return sheet.unchanged(Err(Refusal::Full.into()));
    }
    let mut row = [0i64; MOST_PICTURES];
    match read_record(plan, record, &mut row) {
        Ok(count) => sheet.add(&row[..count]),
        Err(refused) => sheet.unchanged(Err(refused)),
    }
}

// One record, which stands alone, added to the sheet.
pub fn add_record(plan: &[u8], record: &[u8], sheet: Sheet) -> Added
    ensures { RecordAddIs plan.now «record».now sheet (added_in result) }
{
    match Plan::new(plan) {
        Ok(plan) => added(plan, record, sheet),
        Err(refusal) => sheet.unchanged(Err(refusal.into())),
    }
}

// FULL, LENGTH, the end, or the record at the place.
fn added_at(plan: Plan<'_>, batch: &[u8], place: usize, sheet: Sheet) -> Added
    ensures { added_in result ≡ plan_placed plan.entry.bytes.now batch.now place sheet }
{
    if sheet.count >= MOST_RECORDS {
        return sheet.unchanged(Err(Refusal::Full.into()));
    }
    match next_of(plan.record_length(), batch.len(), place) {
        Ok(Some(here)) => added(plan, &batch[here.from..here.to], sheet),
        Ok(None) => sheet.unchanged(Ok(0)),
        Err(refusal) => sheet.unchanged(Err(refusal.into())),
    }
}

// The record at a place of the batch added to the sheet. At the end of the batch nothing is added, and the
// outcome is 0.
pub fn add(plan: &[u8], batch: &[u8], place: usize, sheet: Sheet) -> Added
    ensures { AddIs plan.now batch.now place sheet (added_in result) }
{
    match Plan::new(plan) {
        Ok(plan) => added_at(plan, batch, place, sheet),
        Err(refusal) => sheet.unchanged(Err(refusal.into())),
    }
}

// Whether the adding of a batch goes on behind a record with this outcome: it was added, or a field of it
// says nothing.
#[tactic(auto, unfolding(totals::specs::History::goes_on))]
fn goes_on(outcome: Result<usize, Refused>) -> bool
    ensures { result ≡ goes_on (fields_answer outcome) }
{
    match outcome {
        Ok(count) => 0 < count,
        Err(refused) => refused.refusal == Refusal::Conversion,
    }
}

fn added_all(plan: Plan<'_>, batch: &[u8], sheet: Sheet) -> Batched
    ensures { Along plan.entry.bytes.now batch.now 0 sheet (batched_in result) }
{
    let size = plan.record_length();
    let mut place: usize = 0;
    let mut kept = sheet;
    // A loop, since a range of places would not tell the turns: FULL and SIZE end them too, and the batch's
    // end is asked as a place.
    loop {
        let Added { outcome, sheet } = added_at(plan, batch, place, kept);
        if !goes_on(outcome) {
            return Batched {
                outcome,
                place,
                sheet,
            };
        }
        kept = sheet;
        place += size;
    }
}

// The records of the batch, added in order, up to its end or to the first that is refused with another
// refusal than CONVERSION.
pub fn add_all(plan: &[u8], batch: &[u8], sheet: Sheet) -> Batched
    ensures { Along plan.now batch.now 0 sheet (batched_in result) }
{
    match Plan::new(plan) {
        Ok(plan) => added_all(plan, batch, sheet),
        Err(refusal) => Batched {
            outcome: Err(refusal.into()),
            place: 0,
            sheet,
        },
    }
}
