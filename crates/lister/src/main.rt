// The record lister (RULES 8): prints the listing of its standard input, and sums it up on standard error.
// What each line of the listing says is proved of the library `listing`; here the input is read and taken
// apart, and each line printed as soon as it is written. Each function that lists has gone through all lines
// that the listing has, and answers how many; that each is printed, once and in order, is left to the
// comparison. Where a line can't be written, those behind it are gone through and not printed.
#![tactic(auto)]

mod saying; // saying.rt: what is said on standard error

ghost use Rattle.std.specs.Prelude.{◌≡◌, true, ◌+◌, ◌≤◌, ◌<◌, length, take, drop};
ghost use Rattle.listing.specs.Lines.{most_line, most_plan};
ghost use Rattle.listing.specs.Program.{most_input, most_record, cleared, HasPlan, lines_in, lines_left, layout_in, ListingLine, line_count};
ghost use Rattle.remarks.specs.Remarks.{RefusedAmong};

use listing::{INPUT, LINE, Lines, PLAN, RECORD, layout_and_records};

// What has come of the records: how many there are, how many are refused, whether one ends in a carriage
// return, and whether every line of the listing has been written: all else holds either way.
#[derive(Clone, Copy)]
pub(crate) struct Course {
    pub records: usize,
    pub refused: usize,
    pub returns: bool,
    pub whole: bool,
}

// Prints line k of the input's listing where all before it have been written, and answers whether it has been
// too. Nothing is printed but here. The totals program has one of its own, since each asks for its own lines.
fn print_line(rt: &HostRuntime, whole: bool, k: usize, input: &[u8], text: &[u8]) -> bool
    requires { ListingLine input.now k text.now }
    ensures { result ≡ true → whole ≡ true }
{
    moving::write(
        rt,
        whole,
        text,
        b"list: writing the listing failed, it is not whole",
    )
}

// The records, which are the lines behind the layout's. `record` is the one record that the lister keeps;
// `printed` says whether the layout's line was written.
fn list_records(
    rt: &HostRuntime,
    input: &[u8],
    lines: Lines<'_>,
    plan: &[u8],
    record: &mut [u8],
    out: &mut [u8],
    printed: bool,
) -> Course
    requires input { (length input.now ≤ most_input) × (lines_left lines ≡ drop 1 (lines_in input.now)) }
    requires plan { HasPlan (layout_in input.now) plan.now }
    requires rooms { (length «record».old ≡ most_record) × (most_line ≤ length out.old) }
    ensures lines { result.records + 1 ≡ line_count input.now }
    ensures refused { RefusedAmong input.now result.records result.refused }
    ensures few { result.records ≤ most_input }
    ensures whole { result.whole ≡ true → printed ≡ true }
{
    let mut records = 0;
    let mut refused = 0;
    let mut returns = false;
    let mut whole = printed;
    for line in lines {
        records += 1;
        let n = listing::kept_line(records, plan, line, record, out);
        whole = print_line(rt, whole, records, input, &out[..n]);
        refused += usize::from(remarks::says_refusal(&out[..n]));
        returns |= remarks::ends_in(line, b'\r');
    }
    Course {
        records,
        refused,
        returns,
        whole,
    }
}

// The layout line, which is empty where the input is, and behind an accepted layout the records.
fn list(rt: &HostRuntime, input: &[u8], plan: &mut [u8], record: &mut [u8], out: &mut [u8]) -> usize
    requires input { length input.now ≤ most_input }
    requires rooms { (most_plan ≤ length plan.old) × (length «record».old ≡ most_record) × (most_line ≤ length out.old) }
    ensures { result ≡ line_count input.now }
{
    let (layout, lines) = layout_and_records(input);
    let listed = listing::layout_line(layout, plan, out);
    let whole = print_line(rt, true, 0, input, &out[..listed.line]);
    let Some(length) = listed.plan else {
        saying::layout_refused(rt, whole, layout);
        return 1;
    };
    let course = list_records(rt, input, lines, &plan[..length], record, out, whole);
    saying::sum_up(rt, input, course);
    course.records + 1
}

// What has been read, the first n bytes of `input`. That has a byte more than the limit, so an input over the
// limit is noticed.
fn list_read(
    rt: &HostRuntime,
    input: &[u8],
    n: usize,
    plan: &mut [u8],
    record: &mut [u8],
    out: &mut [u8],
) -> usize
    requires input { (most_input < length input.now) × (n ≤ length input.now) }
    requires rooms { (most_plan ≤ length plan.old) × («record».old ≡ cleared) × (most_line ≤ length out.old) }
    ensures { result ≡ line_count (take n input.now) }
{
    if listing::is_over(n) {
        let over = listing::over_line(out);
        let whole = print_line(rt, true, 0, &input[..n], &out[..over]);
        saying::over_limit(rt, whole, &input[..n]);
        return 1;
    }
    list(rt, &input[..n], plan, record, out)
}

// An input that could not be read to its end is not listed.
fn main(rt: HostRuntime) {
    let mut input = [0u8; INPUT];
    let mut plan = [0u8; PLAN];
    let mut record = [0u8; RECORD];
    let mut out = [0u8; LINE];
    let got = moving::read(&rt, &mut input, b"list: reading the input failed");
    if let Ok(count) = got {
        list_read(&rt, &input, count, &mut plan, &mut record, &mut out);
    }
}
