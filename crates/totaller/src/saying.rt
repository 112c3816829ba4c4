// What is said on standard error about a total that has been printed whole: the sum in the last line, and
// before it where the adding stopped and what an operator should look for. The script ./total goes by these
// lines, so what they say must be so.
ghost use Rattle.std.specs.Prelude.{◌≡◌, false, ◌<◌, length};
ghost use Rattle.listing.specs.Program.{accepted, most_input};
ghost use Rattle.listing.specs.TotalProgram.{limit_of, stop_number, Totalled};

use super::Course;
use moving::Program;
use rules::Refusal;

// A refused layout.
pub(crate) fn layout_refused(rt: &HostRuntime, whole: bool, layout: &[u8])
    requires { accepted layout.now ≡ false }
{
    if whole {
        Program::Total.layout_refused(rt, layout);
    }
}

// An input over the limit.
pub(crate) fn over_limit(rt: &HostRuntime, whole: bool, input: &[u8])
    requires { most_input < length input.now }
{
    if whole {
        Program::Total.over_limit(rt);
    }
}

// The record at which the adding stopped, where it did.
fn stopped(rt: &HostRuntime, record: usize, stop: Option<Refusal>)
    requires { stop_number stop ≡ limit_of (stop_number stop) }
{
    let reason = match stop {
        None => return,
        Some(Refusal::Size) => "8: a sum would be 10^18 or beyond",
        Some(_) => "14: the sheet has 9,000 records",
    };
    let _ = eprintln!(rt;
        "total: stopped at record {record} with {reason}; the totals are those of the records before it"
    );
}

// The records behind an accepted layout: how many are added and how many are refused.
pub(crate) fn sum_up(rt: &HostRuntime, whole: bool, input: &[u8], course: Course)
    requires { Totalled input.now course.records course.refused (stop_number course.stop) course.sheet }
{
    if !whole {
        return;
    }
    if course.returns {
        Program::Total.returns_hint(rt);
    }
    stopped(rt, course.records, course.stop);
    let added = course.sheet.count;
    let noun = if added == 1 { "record" } else { "records" };
    let refused = course.refused;
    let _ = eprintln!(rt; "total: {added} {noun} added, {refused} refused");
}
