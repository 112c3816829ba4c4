// What is remarked beside a listing (RULES 8.8) and beside totals: whether a line of a listing says a
// refusal, and what stands at the ends of a line that an editor or another machine has put there. Every call
// takes every input.
#![tactic(auto)]

ghost use Rattle.std.specs.Prelude.{◌≡◌, ◌==◌, position};
ghost use Rattle.remarks.specs.Remarks.{not_zero, refuses, ends_in, is_marked};

// Whether a line of a listing says a refusal: what stands behind its first comma tells.
pub fn says_refusal(line: &[u8]) -> bool
    ensures { result ≡ refuses line.now }
{
    match first_comma(line) {
        Some(comma) => not_zero(&line[comma + 1..]),
        None => false,
    }
}

// Whether another character than 0 stands first.
fn not_zero(bytes: &[u8]) -> bool
    ensures { result ≡ not_zero bytes.now }
{
    match bytes {
        [digit, ..] => *digit != b'0',
        [] => false,
    }
}

// A function of its own, so that what the chain gives is known where it is used.
fn first_comma(line: &[u8]) -> Option<usize>
    ensures { result ≡ position (λ byte. byte == 44) line.now }
{
    line.iter().position(|byte| *byte == b',')
}

// Whether this is the line's last byte.
pub fn ends_in(line: &[u8], byte: u8) -> bool
    ensures { result ≡ ends_in byte line.now }
{
    line.ends_with(&[byte])
}

// Whether the line begins with a byte-order mark.
pub fn is_marked(line: &[u8]) -> bool
    ensures { result ≡ is_marked line.now }
{
    line.starts_with(b"\xef\xbb\xbf")
}
