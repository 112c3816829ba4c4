// One picture by its text: checked, edited and read. Each call takes every input and does its own checking. A
// refusal is one of RULES 6.1, and a success has the length or the value of RULES 6.4.
#![tactic(auto)]

mod editing; // editing.rt: a value as the field of a picture
pub mod verdict; // verdict.rt: the refusals of a picture text, in their order

ghost use Rattle.std.specs.Prelude.{◌≡◌};
ghost use Rattle.rules.specs.declared.Rounding.TheVariants.{HalfAway, Cut};
ghost use Rattle.rules.specs.Answers.{check_answer, edit_answer, edit_memory, ReadIs};
ghost use Rattle.rules.specs.Refusals.{length_answer, value_answer};

use editing::edit_picture;
use rules::{Refusal, Rounding};
use verdict::{judge, judged_form};

// Whether the text is a picture; on success its length n.
pub fn check(text: &[u8]) -> Result<usize, Refusal>
    ensures { length_answer result ≡ check_answer text.now }
{
    let form = judged_form(text)?;
    Ok(form.size)
}

// M at scale q as the field of the picture, rounded half away from zero to the picture's places, in the first
// n bytes of `out`; on success the length n.
pub fn edit(text: &[u8], m: i64, q: u64, out: &mut [u8]) -> Result<usize, Refusal>
    ensures answer { length_answer result ≡ edit_answer HalfAway text.now m q out.old }
    ensures memory { out.new ≡ edit_memory HalfAway text.now m q out.old }
{
    edit_picture(Rounding::HalfAway, judge(text)?, m, q, out)
}

// The same, cut toward zero instead. C has a call for each mode.
pub fn edit_cut(text: &[u8], m: i64, q: u64, out: &mut [u8]) -> Result<usize, Refusal>
    ensures answer { length_answer result ≡ edit_answer Cut text.now m q out.old }
    ensures memory { out.new ≡ edit_memory Cut text.now m q out.old }
{
    edit_picture(Rounding::Cut, judge(text)?, m, q, out)
}

// The value that the field says under the picture, at the picture's own scale. RULES 6.6: the picture's own
// refusals, LENGTH, CONVERSION.
pub fn read(text: &[u8], field: &[u8]) -> Result<i64, Refusal>
    ensures { ReadIs text.now field.now (value_answer result) }
{
    let form = judged_form(text)?;
    if field.len() != form.size {
        return Err(Refusal::Length);
    }
    fieldread::read(form.lent(), field).ok_or(Refusal::Conversion)
}
