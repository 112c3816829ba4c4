// The calls of a C program, on plain numbers and byte runs: a run is a pointer and then its length. Each
// answers number, field and length packed into one (RULES 7.2). include/morvenka.h declares them.
#![tactic(auto)]

mod sheets; // sheets.rt: the call on a totals sheet

ghost use Rattle.std.specs.Prelude.{◌≡◌, ◌/◌, ◌≤◌, min, length};
ghost use Rattle.rules.specs.declared.Rounding.TheVariants.{HalfAway, Cut};
ghost use Rattle.rules.specs.Layout.{most_pictures};
ghost use Rattle.rules.specs.Answers.{check_answer, edit_answer, edit_memory, compile_answer, compile_memory};
ghost use Rattle.rules.specs.Collector.{packed, ReadRunIs};
ghost use Rattle.collector.specs.ReadRuns.{with_room};
ghost use Rattle.collector.specs.PlanRuns.{PlanReadRunIs, PlanEditRunIs, row_count};

use answer::{of_fields, of_length, of_value};
use rules::{Answer, MOST_PICTURES, Refusal};

// No call's length passes 2,048 by much, so that nothing here can wrap.
#[tactic(auto, unfolding(rules::specs::Collector::packed))]
fn pack(answer: Answer) -> u64
    requires { answer.length ≤ 65536 }
    ensures { result ≡ packed answer }
{
    u64::from(answer.number) + 256 * u64::from(answer.field) + 65536 * (answer.length as u64)
}

#[tactic(auto, using(crate::proofs::Lengths::check_length))]
#[unsafe(no_mangle)]
pub extern "C" fn morvenka_check(text: &[u8]) -> u64
    ensures { result ≡ packed (check_answer text.now) }
{
    pack(of_length(picture::check(text)))
}

// Rounded half away from zero to the picture's places.
#[tactic(auto, using(crate::proofs::Lengths::edit_length))]
#[unsafe(no_mangle)]
pub extern "C" fn morvenka_edit(text: &[u8], m: i64, q: u64, out: &mut [u8]) -> u64
    ensures answer { result ≡ packed (edit_answer HalfAway text.now m q out.old) }
    ensures memory { out.new ≡ edit_memory HalfAway text.now m q out.old }
{
    pack(of_length(picture::edit(text, m, q, out)))
}

// Cut toward zero to the picture's places.
#[tactic(auto, using(crate::proofs::Lengths::edit_length))]
#[unsafe(no_mangle)]
pub extern "C" fn morvenka_edit_cut(text: &[u8], m: i64, q: u64, out: &mut [u8]) -> u64
    ensures answer { result ≡ packed (edit_answer Cut text.now m q out.old) }
    ensures memory { out.new ≡ edit_memory Cut text.now m q out.old }
{
    pack(of_length(picture::edit_cut(text, m, q, out)))
}

// What a reading comes to where there are so many bytes for its value: a row that is too short comes before a
// field that says nothing, and behind the other refusals (RULES 7.5).
fn with_room(outcome: Result<i64, Refusal>, room: usize) -> Result<i64, Refusal>
    ensures { result ≡ with_room room outcome }
{
    match outcome {
        Ok(_) | Err(Refusal::Conversion) if room < 8 => Err(Refusal::Room),
        _ => outcome,
    }
}

// The value goes into the first eight bytes of `row`.
#[tactic(auto, using(crate::proofs::Runs::value_few))]
#[unsafe(no_mangle)]
pub extern "C" fn morvenka_read(text: &[u8], field: &[u8], row: &mut [u8]) -> u64
    ensures { ReadRunIs text.now field.now row.old result row.new }
{
    let outcome = with_room(picture::read(text, field), row.len());
    if let Ok(value) = outcome {
        wire::put(row, 0, value);
    }
    pack(of_value(outcome))
}

#[tactic(auto, using(crate::proofs::PlanCalls::compile_small))]
#[unsafe(no_mangle)]
pub extern "C" fn morvenka_compile(layout: &[u8], plan: &mut [u8]) -> u64
    ensures answer { result ≡ packed (compile_answer layout.now plan.old) }
    ensures memory { plan.new ≡ compile_memory layout.now plan.old }
{
    pack(of_fields(layout::compile(layout, plan)))
}

// By a row of as many numbers as the run holds whole, 32 at the most.
fn read_by(plan: &[u8], record: &[u8], values: &mut [i64], row: &mut [u8]) -> u64
    requires { length values.old ≡ min (length row.old / 8) most_pictures }
    ensures { PlanReadRunIs plan.now «record».now row.old result row.new }
{
    let outcome = planread::read(plan, record, values);
    if let Ok(count) = outcome {
        wire::put_row(row, &values[..count]);
    }
    pack(of_fields(outcome))
}

// No plan has more than 32 fields, so that a row of 32 numbers holds what a longer run would.
#[unsafe(no_mangle)]
pub extern "C" fn morvenka_plan_read(plan: &[u8], record: &[u8], row: &mut [u8]) -> u64
    ensures { PlanReadRunIs plan.now «record».now row.old result row.new }
{
    let mut values = [0i64; MOST_PICTURES];
    let places = (row.len() / 8).min(MOST_PICTURES);
    read_by(plan, record, &mut values[..places], row)
}

// The numbers in a run of whole ones, at most 32 of them; else 0, which no plan's row has, so that it is
// LENGTH behind PLAN.
#[tactic(auto, unfolding(crate::specs::PlanRuns::row_count))]
fn row_count(bytes: usize) -> usize
    ensures { (result ≡ row_count bytes) × (result ≤ most_pictures) }
{
    if bytes % 8 != 0 || MOST_PICTURES < bytes / 8 {
        return 0;
    }
    bytes / 8
}

// By a row of as many numbers as the run has.
fn edit_by(plan: &[u8], row: &[u8], values: &mut [i64], record: &mut [u8]) -> u64
    requires { length values.old ≡ row_count (length row.now) }
    ensures { PlanEditRunIs plan.now row.now «record».old result «record».new }
{
    wire::get_row(row, values);
    pack(of_fields(planedit::edit(plan, values, record)))
}

#[unsafe(no_mangle)]
pub extern "C" fn morvenka_plan_edit(plan: &[u8], row: &[u8], record: &mut [u8]) -> u64
    ensures { PlanEditRunIs plan.now row.now «record».old result «record».new }
{
    let mut values = [0i64; MOST_PICTURES];
    let count = row_count(row.len());
    edit_by(plan, row, &mut values[..count], record)
}
