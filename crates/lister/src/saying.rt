// What is said on standard error about a listing that has been printed whole (RULES 8.8): the sum in the last
// line, and before it what an operator should look for. The script ./list goes by the last line, so what it
// says must be so.
ghost use Rattle.std.specs.Prelude.{◌≡◌, true, false, ◌+◌, ◌<◌, length};
ghost use Rattle.listing.specs.Program.{accepted, most_input, layout_in, line_count};
ghost use Rattle.remarks.specs.Remarks.{RefusedAmong};

use super::Course;
use moving::Program;

// A refused layout.
pub(crate) fn layout_refused(rt: &HostRuntime, whole: bool, layout: &[u8])
    requires { accepted layout.now ≡ false }
{
    if whole {
        Program::List.layout_refused(rt, layout);
    }
}

// An input over the limit.
pub(crate) fn over_limit(rt: &HostRuntime, whole: bool, input: &[u8])
    requires { most_input < length input.now }
{
    if whole {
        Program::List.over_limit(rt);
    }
}

// The records behind an accepted layout: how many there are and how many are refused.
pub(crate) fn sum_up(rt: &HostRuntime, input: &[u8], course: Course)
    requires layout { accepted (layout_in input.now) ≡ true }
    requires records { (course.records + 1 ≡ line_count input.now) × RefusedAmong input.now course.records course.refused }
{
    if !course.whole {
        return;
    }
    if course.returns {
        Program::List.returns_hint(rt);
    }
    let records = course.records;
    let noun = if records == 1 { "record" } else { "records" };
    let refused = course.refused;
    let _ = eprintln!(rt; "list: {records} {noun}, {refused} refused");
}
