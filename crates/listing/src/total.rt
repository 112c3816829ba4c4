// The lines of a total (RULES 9.11), each written whole into the first bytes of the lent memory as a
// listing's are: that of a record that can't be added, the count, and a field's. Every call takes every
// input. Where the lent memory is shorter than a line may be, nothing is written there and length 0 is
// answered.
ghost use Rattle.std.specs.Prelude.{◌≡◌, ◌≤◌, length, IfSome};
ghost use Rattle.rules.specs.Layout.{most_pictures};
ghost use Rattle.listing.specs.Lines.{line_length, line_memory};
ghost use Rattle.listing.specs.TotalLines.{EnteredIs, row_text, count_text, place_text};

use super::LINE;
use super::number::put_number;
use super::words::{put_end, put_line, put_values};
use rules::{MOST_PICTURES, Refusal};
use totals::Sheet;

// Why a record was refused, and the length of the line that says so.
#[derive(Clone, Copy)]
pub struct RefusedLine {
    pub refusal: Refusal,
    pub line: usize,
}

// What has come of a record: its refusal, where it was refused, and the sheet.
#[derive(Clone, Copy)]
pub struct Entered {
    pub refused: Option<RefusedLine>,
    pub sheet: Sheet,
}

// Adds record number k to the sheet, by the plan. A record that is added has no line.
pub fn added_line(k: usize, plan: &[u8], record: &[u8], sheet: Sheet, out: &mut [u8]) -> Entered
    ensures line { EnteredIs k plan.now «record».now sheet out.old result out.new }
    ensures within { IfSome result.refused (λ refused. refused.line ≤ length out.new) }
{
    let added = planread::batch::add_record(plan, record, sheet);
    match added.outcome {
        Ok(_) => Entered {
            refused: None,
            sheet: added.sheet,
        },
        Err(refused) => {
            let line = put_line(k as u64, Err(refused), out);
            let refusal = refused.refusal;
            Entered {
                refused: Some(RefusedLine { refusal, line }),
                sheet: added.sheet,
            }
        }
    }
}

// A whole line from the lent memory's first byte on: a number and the values of the row.
fn put_row(n: u64, row: &[i64], out: &mut [u8]) -> usize
    requires { length row.now ≤ most_pictures }
    ensures answer { result ≡ line_length (row_text n row.now) out.old }
    ensures memory { out.new ≡ line_memory (row_text n row.now) out.old }
    ensures within { result ≤ length out.new }
{
    if out.len() < LINE {
        return 0;
    }
    let head = put_number(n, 0, out);
    let end = put_values(row, head, out);
    put_end(end, out)
}

// The count of the records added, alone.
pub fn count_line(count: usize, out: &mut [u8]) -> usize
    ensures answer { result ≡ line_length (count_text count) out.old }
    ensures memory { out.new ≡ line_memory (count_text count) out.old }
    ensures within { result ≤ length out.new }
{
    put_row(count as u64, &[], out)
}

// The field at place i of the sheet: its number from 1, sum, least and greatest. A sheet has 32 places:
// behind them nothing is written, and length 0 is answered.
pub fn field_line(sheet: &Sheet, i: usize, out: &mut [u8]) -> usize
    ensures answer { result ≡ line_length (place_text sheet.now i) out.old }
    ensures memory { out.new ≡ line_memory (place_text sheet.now i) out.old }
    ensures within { result ≤ length out.new }
{
    if MOST_PICTURES <= i {
        return 0;
    }
    let row = [sheet.sums[i], sheet.least[i], sheet.greatest[i]];
    put_row(i as u64 + 1, &row, out)
}
