// The lines of an input, one after the other (RULES 8.1).
ghost use Rattle.std.specs.Prelude.{◌≡◌, drop, take};
ghost use Rattle.std.specs.Iterator.{YieldsFirstRef, item_count};
ghost use Rattle.listing.specs.Lines.{to_end};
ghost use Rattle.listing.specs.Program.{lines_in, lines_left, layout_in};

use super::line_end;

// What is left of an input. Behind its last LF no line begins.
#[derive(Clone, Copy)]
pub struct Lines<'a> {
    pub(crate) rest: &'a [u8],
}

impl<'a> Iterator for Lines<'a> {
    type Item = &'a [u8];

    ghost next_gives = { YieldsFirstRef lines_left };

    ghost remaining = { item_count lines_left };

    fn next(&mut self) -> Option<&'a [u8]> {
        let rest = self.rest;
        if rest.is_empty() {
            return None;
        }
        let end = line_end(rest, 0);
        self.rest = &rest[rest.len().min(end + 1)..];
        Some(&rest[..end])
    }
}

// The input's layout line, which is empty where the input is, and the lines behind it: the records.
pub fn layout_and_records(input: &[u8]) -> (&[u8], Lines<'_>)
    ensures layout { result.0.now ≡ layout_in input.now }
    ensures end { result.0.now ≡ take (to_end input.now) input.now }
    ensures records { lines_left result.1 ≡ drop 1 (lines_in input.now) }
{
    let mut lines = Lines { rest: input };
    let layout = lines.next().unwrap_or(&[]);
    (layout, lines)
}
