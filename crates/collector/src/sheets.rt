// The call that adds a record to a totals sheet, which a C program lends as a run of 776 bytes (RULES 9.10):
// the count, and behind it 32 sums, 32 least and 32 greatest values, eight bytes each.
ghost use Rattle.std.specs.Prelude.{◌≡◌, ◌++◌, ◌+◌, ◌≤◌, length, take, drop};
ghost use Rattle.rules.specs.Layout.{most_pictures};
ghost use Rattle.rules.specs.Collector.{row_bytes, row_in};
ghost use Rattle.totals.specs.Totals.{most_records};
ghost use Rattle.collector.specs.TotalRuns.{counted, sheet_bytes, sheet_in, sheet_size, TotalsAddRunIs};

use super::pack;
use answer::of_fields;
use plan::Plan;
use planread::batch;
use rules::{MOST_PICTURES, Refusal};
use totals::{MOST_RECORDS, Sheet};

const SHEET_SIZE: usize = 776;

const SUMS_AT: usize = 8;

const LEAST_AT: usize = 264;

const GREATEST_AT: usize = 520;

// A number below 0 is no count, and the sheet is taken as full.
fn counted_of(m: i64) -> usize
    ensures { result ≡ counted m }
{
    usize::try_from(m).unwrap_or(MOST_RECORDS)
}

// The 32 numbers from byte `at` on.
#[tactic(auto, using(crate::proofs::Columns::column_got))]
fn get_column(run: &[u8], at: usize) -> [i64; MOST_PICTURES]
    requires { at + 256 ≤ length run.now }
    ensures { result ≡ row_in most_pictures (drop at run.now) }
{
    let mut column = [0i64; MOST_PICTURES];
    wire::get_row(&run[at..], &mut column);
    column
}

#[tactic(auto, using(crate::proofs::Columns::column_put))]
fn put_column(run: &mut [u8], at: usize, column: &[i64; MOST_PICTURES])
    requires { at + 256 ≤ length run.old }
    ensures memory { run.new ≡ take at run.old ++ (row_bytes column.now ++ drop (at + 256) run.old) }
{
    wire::put_row(&mut run[at..], column);
}

fn get_sheet(run: &[u8]) -> Sheet
    requires { sheet_size ≤ length run.now }
    ensures { result ≡ sheet_in run.now }
{
    Sheet {
        count: counted_of(wire::get(run, 0)),
        sums: get_column(run, SUMS_AT),
        least: get_column(run, LEAST_AT),
        greatest: get_column(run, GREATEST_AT),
    }
}

// What stands behind the sheet stays.
fn put_sheet(run: &mut [u8], sheet: &Sheet)
    requires { (sheet_size ≤ length run.old) × (sheet.now.count ≤ most_records) }
    ensures memory { run.new ≡ sheet_bytes sheet.now ++ drop sheet_size run.old }
{
    wire::put(run, 0, sheet.count as i64);
    put_column(run, SUMS_AT, &sheet.sums);
    put_column(run, LEAST_AT, &sheet.least);
    put_column(run, GREATEST_AT, &sheet.greatest);
}

// PLAN comes before ROOM, and `add` judges the plan where there is room. The end of the batch has no length,
// and leaves the run as a refusal does.
#[unsafe(no_mangle)]
pub extern "C" fn morvenka_totals_add(
    plan: &[u8],
    batch: &[u8],
    place: u64,
    sheet: &mut [u8],
) -> u64
    ensures { TotalsAddRunIs plan.now batch.now place sheet.old result sheet.new }
{
    if sheet.len() < SHEET_SIZE {
        let refusal = Plan::new(plan).err().unwrap_or(Refusal::Room);
        return pack(of_fields(Err(refusal.into())));
    }
    let added = batch::add(plan, batch, place as usize, get_sheet(sheet));
    let answer = of_fields(added.outcome);
    if 0 < answer.length {
        put_sheet(sheet, &added.sheet);
    }
    pack(answer)
}
