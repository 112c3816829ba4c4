// The lines of a listing, each written whole into the first bytes of the lent memory: a layout's, a record's,
// and that of an input over the limit. Every call takes every input. Where the lent memory is shorter than a
// line may be, nothing is written there and length 0 is answered. That a length lies `within` the memory
// follows from the rest, and is said so that a caller can lend the line on.
#![tactic(auto)]

mod number; // number.rt: a number in decimal
mod walk; // walk.rt: the lines of an input
pub mod total; // total.rt: the lines of a total
mod words; // words.rt: the words of a line

ghost use Rattle.std.specs.Prelude.{◌≡◌, ◌==◌, ◌+◌, ◌≤◌, ltb, length, drop, position, IfSome};
ghost use Rattle.rules.specs.Answers.{compile_memory};
ghost use Rattle.rules.specs.Lister.{most_input, over_limit};
ghost use Rattle.listing.specs.Lines.{listed_of, layout_text, RecordLineIs, line_length, line_memory, kept_in, to_end};

use rules::{MOST_INPUT, MOST_PICTURES, Picture, Refusal};
pub use walk::{Lines, layout_and_records};
use words::put_line;

// The longest line: three numbers of 20 digits, their two commas, a comma and at most 21 characters a value,
// and the end.
pub const LINE: usize = 3 * 20 + 2 + 22 * MOST_PICTURES + 1;

// The longest record: 2,048 characters, which the lister keeps (RULES 8.6).
pub const RECORD: usize = MOST_PICTURES * Picture::MOST_SYMBOLS;

// The longest plan. With as many bytes lent no layout is refused for room.
pub const PLAN: usize = 1 + 3 * MOST_PICTURES + 2 + RECORD;

// A byte more than the limit (RULES 8.2), so that an input over it is noticed.
pub const INPUT: usize = MOST_INPUT + 1;

// The plan's length, where the layout is accepted; and the line's.
#[derive(Clone, Copy)]
pub struct Listed {
    pub plan: Option<usize>,
    pub line: usize,
}

// The first line of a listing. The layout is compiled into `plan`, and its counts are taken from there: the
// field count is the plan's first byte, and what is left of the length without headers and counts is the
// record length.
pub fn layout_line(layout: &[u8], plan: &mut [u8], out: &mut [u8]) -> Listed
    ensures answer { result ≡ listed_of layout.now plan.old out.old }
    ensures plan { plan.new ≡ compile_memory layout.now plan.old }
    ensures memory { out.new ≡ line_memory (layout_text layout.now plan.old) out.old }
    ensures within { IfSome result.plan (λ n. n ≤ length plan.new) × (result.line ≤ length out.new) }
{
    match layout::compile(layout, plan) {
        Ok(length) => {
            let fields = usize::from(plan[0]);
            let symbols = length - 3 - 3 * fields;
            let line = put_line(0, Ok(&[fields as i64, symbols as i64]), out);
            Listed {
                plan: Some(length),
                line,
            }
        }
        Err(refused) => {
            let line = put_line(0, Err(refused), out);
            Listed { plan: None, line }
        }
    }
}

// The line of record number k, read by the plan.
pub fn record_line(k: usize, plan: &[u8], record: &[u8], out: &mut [u8]) -> usize
    ensures line { RecordLineIs k plan.now «record».now out.old result out.new }
    ensures within { result ≤ length out.new }
{
    let mut row = [0i64; MOST_PICTURES];
    match planread::read(plan, record, &mut row) {
        Ok(count) => put_line(k as u64, Ok(&row[..count]), out),
        Err(refused) => put_line(k as u64, Err(refused), out),
    }
}

// The line of record number k, kept in `record` while it is read. A line that is longer than `record` is not
// cut: it is read where it stands.
pub fn kept_line(k: usize, plan: &[u8], line: &[u8], record: &mut [u8], out: &mut [u8]) -> usize
    ensures line { RecordLineIs k plan.now line.now out.old result out.new }
    ensures kept { «record».new ≡ kept_in line.now «record».old }
    ensures within { result ≤ length out.new }
{
    let n = line.len();
    if record.len() < n {
        return record_line(k, plan, line, out);
    }
    copying::put(line, record, 0);
    record_line(k, plan, &record[..n], out)
}

// RULES 8.1: where the line that begins at `from` ends: the place of the next LF, or the input's end.
pub fn line_end(input: &[u8], from: usize) -> usize
    ensures { result ≡ from + to_end (drop from input.now) }
{
    match input.get(from..) {
        Some(rest) => from + first_end(rest).unwrap_or(rest.len()),
        None => from,
    }
}

// A function of its own, so that what the chain gives is known where it is used.
fn first_end(rest: &[u8]) -> Option<usize>
    ensures { result ≡ position (λ byte. byte == 10) rest.now }
{
    rest.iter().position(|byte| *byte == b'\n')
}

// Whether an input of n bytes is over the limit.
pub fn is_over(n: usize) -> bool
    ensures { result ≡ ltb most_input n }
{
    MOST_INPUT < n
}

// The whole listing of an input over the limit.
pub fn over_line(out: &mut [u8]) -> usize
    ensures answer { result ≡ line_length over_limit out.old }
    ensures memory { out.new ≡ line_memory over_limit out.old }
    ensures within { result ≤ length out.new }
{
    put_line(0, Err(Refusal::Input.into()), out)
}
