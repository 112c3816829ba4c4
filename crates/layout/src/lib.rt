// A layout text compiled to a plan: its pictures are counted, judged and measured, then the bytes of their
// forms are written. The lent memory is written once every refusal is settled.
#![tactic(auto)]

mod cutting; // cutting.rt: the pictures of a layout, and whether their count is right
mod measuring; // measuring.rt: the first bad picture, or what the plan needs
mod writing; // writing.rt: the plan's bytes

ghost use Rattle.std.specs.Prelude.{◌≡◌};
ghost use Rattle.rules.specs.Answers.{compile_answer, compile_memory};
ghost use Rattle.rules.specs.Refusals.{fields_answer};

use cutting::count_fits;
use measuring::measure;
use rules::{Refusal, Refused};
use writing::write;

// RULES 6.6: COUNT, the first bad picture, ROOM. On success the plan stands first in `plan`, and its length
// comes back.
pub fn compile(layout: &[u8], plan: &mut [u8]) -> Result<usize, Refused>
    ensures answer { fields_answer result ≡ compile_answer layout.now plan.old }
    ensures memory { plan.new ≡ compile_memory layout.now plan.old }
{
    if !count_fits(layout) {
        return Err(Refused::from(Refusal::Count));
    }
    let extent = measure(layout)?;
    let length = 3 * extent.count + 3 + extent.width;
    if plan.len() < length {
        return Err(Refused::from(Refusal::Room));
    }
    write(layout, plan, extent);
    Ok(length)
}
