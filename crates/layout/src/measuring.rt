// The first bad picture of a layout, or what its plan needs. Nothing is written.
ghost use Rattle.std.specs.Prelude.{◌≤◌, length};
ghost use Rattle.rules.specs.Layout.{most_pictures, pictures};
ghost use Rattle.layout.specs.Passes.{FormAt, MeasuredIs};

use super::cutting::Pictures;
use form::Meaning;
use picture::verdict::judged_form;
use rules::Refused;

// How many pictures a layout has, and how many positions all of them together.
#[derive(Clone, Copy)]
pub struct Extent {
    pub count: usize,
    pub width: usize,
}

// The form of the picture in this field, or its refusal there.
fn form_at(text: &[u8], field: u8) -> Result<Meaning, Refused>
    ensures { FormAt text.now field result }
{
    judged_form(text).map_err(|refusal| Refused { refusal, field })
}

// The first bad picture ends the pass (RULES 6.3).
pub(crate) fn measure(layout: &[u8]) -> Result<Extent, Refused>
    requires { length (pictures layout.now) ≤ most_pictures }
    ensures { MeasuredIs (pictures layout.now) result }
{
    let mut extent = Extent { count: 0, width: 0 };
    for text in Pictures::of(layout) {
        extent.count += 1;
        let form = form_at(text, extent.count as u8)?;
        extent.width += form.size;
    }
    Ok(extent)
}
