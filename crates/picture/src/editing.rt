// A value as the field of a picture, written straight into the lent memory when no refusal can come any
// more.
ghost use Rattle.std.specs.Prelude.{◌≡◌, ℕ, List};
ghost use Rattle.rules.specs.Shape.{picture_of, verdict};
ghost use Rattle.rules.specs.Answers.{edit_answer, edit_memory};
ghost use Rattle.rules.specs.Refusals.{length_answer};

use form::form_of;
use roles::table::character_table;
use rules::{Picture, Refusal, Rounding};
use value::settle;

// By the picture of an accepted text, which goes by value as to the rules: VALUE, SIZE, ROOM (RULES 6.6). The
// scale is judged before it is cast to a size.
pub(crate) fn edit_picture(
    rounding: Rounding,
    picture: Picture,
    m: i64,
    q: u64,
    out: &mut [u8],
) -> Result<usize, Refusal>
    ensures answer { (t : List ℕ) → 0 ≡ verdict t → picture ≡ picture_of t → length_answer result ≡ edit_answer rounding t m q out.old }
    ensures memory { (t : List ℕ) → 0 ≡ verdict t → picture ≡ picture_of t → out.new ≡ edit_memory rounding t m q out.old }
{
    if (Picture::MOST_SCALE as u64) < q {
        return Err(Refusal::Value);
    }
    let meaning = form_of(picture);
    let form = meaning.lent();
    let signed = settle(rounding, form, m, q as usize)?;
    let size = form.roles.len();
    if out.len() < size {
        return Err(Refusal::Room);
    }
    field::put(&character_table(), form, signed, out, 0);
    Ok(size)
}
