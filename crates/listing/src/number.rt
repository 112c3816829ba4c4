// A number in decimal: no leading zero, no plus, a minus before a negative one.
ghost use Rattle.std.specs.Prelude.{◌+◌, ◌≤◌, length};
ghost use Rattle.listing.specs.Put.{Puts};

use itoa::{Buffer, Integer};

// The number at a place of the lent memory; the place behind it is answered.
pub(crate) fn put_number<I: Integer>(n: I, at: usize, out: &mut [u8]) -> usize
    requires { at + I.MAX_STR_LEN ≤ length out.old }
    ensures { Puts (I.text n) out.old at out.new result }
{
    let mut buffer = Buffer::new();
    let text = buffer.format(n).as_bytes();
    copying::put(text, out, at);
    at + text.len()
}
