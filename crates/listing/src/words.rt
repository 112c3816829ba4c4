// The words of a line: its number and the answer's, what stands behind them after a comma each, and the
// line's end. Each function answers the place behind what it has written.
ghost use Rattle.std.specs.Prelude.{◌≡◌, [], ◌∷◌, map, ◌+◌, ◌*◌, ◌≤◌, length, IfOk};
ghost use Rattle.rules.specs.Layout.{most_pictures};
ghost use Rattle.rules.specs.Lister.{signed_decimal};
ghost use Rattle.listing.specs.Put.{Puts, behind, head_of, end};
ghost use Rattle.listing.specs.Lines.{text_of, values_in, line_length, line_memory};

use super::LINE;
use super::number::put_number;
use itoa::Integer;
use rules::Refused;

// A comma and a number.
fn put_next<I: Integer>(n: I, at: usize, out: &mut [u8]) -> usize
    requires { at + 1 + I.MAX_STR_LEN ≤ length out.old }
    ensures { Puts (behind (I.text n ∷ [])) out.old at out.new result }
{
    out[at] = b',';
    put_number(n, at + 1, out)
}

// The values of a row, a comma before each.
pub(crate) fn put_values(row: &[i64], at: usize, out: &mut [u8]) -> usize
    requires { (length row.now ≤ most_pictures) × (at + 22 * length row.now ≤ length out.old) }
    ensures { Puts (behind (map signed_decimal row.now)) out.old at out.new result }
{
    let mut place = at;
    for value in row {
        place = put_next(*value, place, out);
    }
    place
}

// The line's own number, then the answer's number and field.
fn put_head(k: u64, number: u8, field: u8, out: &mut [u8]) -> usize
    requires { 62 ≤ length out.old }
    ensures { Puts (head_of k number field) out.old 0 out.new result }
{
    let first = put_number(k, 0, out);
    let second = put_next(number, first, out);
    put_next(field, second, out)
}

// The line's end.
pub(crate) fn put_end(at: usize, out: &mut [u8]) -> usize
    requires { at + 1 ≤ length out.old }
    ensures { Puts end out.old at out.new result }
{
    out[at] = b'\n';
    at + 1
}

// A whole line from the lent memory's first byte on: the answer's words and, on success, the values.
pub(crate) fn put_line(k: u64, answer: Result<&[i64], Refused>, out: &mut [u8]) -> usize
    requires { IfOk answer (λ row. length row.now ≤ most_pictures) }
    ensures answer { result ≡ line_length (text_of k (values_in answer.entry)) out.old }
    ensures memory { out.new ≡ line_memory (text_of k (values_in answer.entry)) out.old }
    ensures within { result ≤ length out.new }
{
    if out.len() < LINE {
        return 0;
    }
    match answer {
        Ok(row) => {
            let head = put_head(k, 0, 0, out);
            let end = put_values(row, head, out);
            put_end(end, out)
        }
        Err(refused) => {
            let head = put_head(k, u8::from(refused.refusal), refused.field, out);
            put_end(head, out)
        }
    }
}
