// The totals of a file (RULES 9.11): prints the total of its standard input, and sums it up on standard
// error. What each line of a total says is proved of the library `listing`; here the input is read and taken
// apart, the records added, and each line printed as soon as it is written. That each is printed, once and in
// order, is left to the comparison. Where a line can't be written, those behind it are gone through and not
// printed.
#![tactic(auto)]

mod saying; // saying.rt: what is said on standard error

ghost use Rattle.std.specs.Prelude.{◌≡◌, [], true, ◌+◌, ◌≤◌, ◌<◌, length, get_or, drop};
ghost use Rattle.listing.specs.Lines.{most_line, most_plan};
ghost use Rattle.listing.specs.Program.{most_input, HasPlan, lines_in, lines_left, layout_in};
ghost use Rattle.rules.specs.Refusals.{refusal_number};
ghost use Rattle.listing.specs.TotalProgram.{limit_of, stop_number, Adding, Totalled, TotalLine};

use listing::total::{added_line, count_line, field_line};
use listing::{INPUT, LINE, Lines, PLAN, layout_and_records};
use rules::Refusal;
use totals::Sheet;

// What has come of the records looked at: how many there are, how many are refused, whether one ends in a
// carriage return, the limit that the last has met, and the sheet; and whether every line of the total has
// been written: all else holds either way.
#[derive(Clone, Copy)]
pub(crate) struct Course {
    pub records: usize,
    pub refused: usize,
    pub returns: bool,
    pub stop: Option<Refusal>,
    pub sheet: Sheet,
    pub whole: bool,
}

// Prints a line of the input's total where all before it have been written, and answers whether it has been
// too. Nothing is printed but here. The lister has one of its own, since each asks for its own lines.
fn print_line(rt: &HostRuntime, whole: bool, input: &[u8], text: &[u8]) -> bool
    requires { TotalLine input.now text.now }
    ensures { result ≡ true → whole ≡ true }
{
    moving::write(
        rt,
        whole,
        text,
        b"total: writing the totals failed, they are not whole",
    )
}

// FULL and SIZE: the sheet takes no such record, and whoever left it out would give the totals of some
// records for those of all.
fn limit_of(refusal: Refusal) -> Option<Refusal>
    ensures { stop_number result ≡ limit_of (refusal_number refusal) }
{
    match refusal {
        Refusal::Full | Refusal::Size => Some(refusal),
        _ => None,
    }
}

// The next record, which is this line, added. It is printed where it is refused.
fn add_next(
    rt: &HostRuntime,
    input: &[u8],
    line: &[u8],
    plan: &[u8],
    out: &mut [u8],
    course: Course,
) -> Course
    requires line { (course.records + 1 < length (lines_in input.now)) × (get_or (lines_in input.now) (course.records + 1) [] ≡ line.now) }
    requires plan { HasPlan (layout_in input.now) plan.now }
    requires room { most_line ≤ length out.old }
    requires course { Adding input.now course.records course.refused 0 course.sheet }
    requires few { (course.records ≤ most_input) × (course.refused ≤ course.records) }
    ensures adds { Adding input.now result.records result.refused (stop_number result.stop) result.sheet }
    ensures one { (result.records ≡ course.records + 1) × (result.refused ≤ result.records) }
    ensures whole { result.whole ≡ true → course.whole ≡ true }
{
    let records = course.records + 1;
    let returns = course.returns || remarks::ends_in(line, b'\r');
    let entered = added_line(records, plan, line, course.sheet, out);
    let sheet = entered.sheet;
    match entered.refused {
        None => Course {
            records,
            refused: course.refused,
            returns,
            stop: None,
            sheet,
            whole: course.whole,
        },
        Some(refused) => {
            let whole = print_line(rt, course.whole, input, &out[..refused.line]);
            Course {
                records,
                refused: course.refused + 1,
                returns,
                stop: limit_of(refused.refusal),
                sheet,
                whole,
            }
        }
    }
}

// The records, which are the lines behind the layout's, up to the last or to one that meets a limit.
// `printed` says whether the layout's line was written.
fn add_records(
    rt: &HostRuntime,
    input: &[u8],
    lines: Lines<'_>,
    plan: &[u8],
    out: &mut [u8],
    printed: bool,
) -> Course
    requires input { (length input.now ≤ most_input) × (lines_left lines ≡ drop 1 (lines_in input.now)) }
    requires plan { HasPlan (layout_in input.now) plan.now }
    requires room { most_line ≤ length out.old }
    ensures all { Totalled input.now result.records result.refused (stop_number result.stop) result.sheet }
    ensures whole { result.whole ≡ true → printed ≡ true }
{
    let mut course = Course {
        records: 0,
        refused: 0,
        returns: false,
        stop: None,
        sheet: Sheet::empty(),
        whole: printed,
    };
    for line in lines {
        course = add_next(rt, input, line, plan, out, course);
        if course.stop.is_some() {
            return course;
        }
    }
    course
}

// The count of the records added, and a line for each of the layout's fields, whose number is the plan's
// first byte. It goes by places, since a field's line is that of its place in the sheet.
fn print_totals(rt: &HostRuntime, input: &[u8], plan: &[u8], out: &mut [u8], course: Course) -> bool
    requires plan { HasPlan (layout_in input.now) plan.now }
    requires room { most_line ≤ length out.old }
    requires course { Totalled input.now course.records course.refused (stop_number course.stop) course.sheet }
    ensures { result ≡ true → course.whole ≡ true }
{
    let n = count_line(course.sheet.count, out);
    let mut whole = print_line(rt, course.whole, input, &out[..n]);
    for i in 0..usize::from(plan[0]) {
        let n = field_line(&course.sheet, i, out);
        whole = print_line(rt, whole, input, &out[..n]);
    }
    whole
}

// The layout line, which is empty where the input is, and behind an accepted layout the records and their
// totals.
fn total(rt: &HostRuntime, input: &[u8], plan: &mut [u8], out: &mut [u8])
    requires input { length input.now ≤ most_input }
    requires rooms { (most_plan ≤ length plan.old) × (most_line ≤ length out.old) }
{
    let (layout, lines) = layout_and_records(input);
    let listed = listing::layout_line(layout, plan, out);
    let whole = print_line(rt, true, input, &out[..listed.line]);
    let Some(length) = listed.plan else {
        saying::layout_refused(rt, whole, layout);
        return;
    };
    let course = add_records(rt, input, lines, &plan[..length], out, whole);
    let all = print_totals(rt, input, &plan[..length], out, course);
    saying::sum_up(rt, all, input, course);
}

// What has been read, the first n bytes of `input`. That has a byte more than the limit, so an input over the
// limit is noticed.
fn total_read(rt: &HostRuntime, input: &[u8], n: usize, plan: &mut [u8], out: &mut [u8])
    requires input { (most_input < length input.now) × (n ≤ length input.now) }
    requires rooms { (most_plan ≤ length plan.old) × (most_line ≤ length out.old) }
{
    if listing::is_over(n) {
        let over = listing::over_line(out);
        let whole = print_line(rt, true, &input[..n], &out[..over]);
        saying::over_limit(rt, whole, &input[..n]);
        return;
    }
    total(rt, &input[..n], plan, out);
}

// An input that could not be read to its end is not added up.
fn main(rt: HostRuntime) {
    let mut input = [0u8; INPUT];
    let mut plan = [0u8; PLAN];
    let mut out = [0u8; LINE];
    let got = moving::read(&rt, &mut input, b"total: reading the input failed");
    if let Ok(count) = got {
        total_read(&rt, &input, count, &mut plan, &mut out);
    }
}
