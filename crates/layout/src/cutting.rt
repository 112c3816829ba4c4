// The pictures of a layout, and whether their count is right.
ghost use Rattle.std.specs.Prelude.{◌≡◌, false, length, position};
ghost use Rattle.rules.specs.Layout.{closes, count_fits, pictures};
ghost use Rattle.layout.specs.Ends.{ends};

use rules::{MOST_LAYOUT, MOST_PICTURES};

// The pictures of a layout, in their order: what stands before each `;`. What no `;` ends is no picture.
#[derive(Drop)]
pub(crate) struct Pictures<'a> {
    pub left: &'a [u8],
}

impl<'a> Pictures<'a> {
    pub(crate) fn of(layout: &'a [u8]) -> Pictures<'a>
        ensures { result.left.now ≡ layout.now }
    {
        Pictures { left: layout }
    }
}

impl<'a> Iterator for Pictures<'a> {
    ghost use Rattle.std.specs.Iterator.{YieldsFirstRef, item_count};

    type Item = &'a [u8];

    ghost next_gives = { YieldsFirstRef (λ s. pictures s.left.now) };

    ghost remaining = { item_count (λ s. pictures s.left.now) };

    fn next(&mut self) -> Option<&'a [u8]> {
        let end = end_of(self.left)?;
        let picture = &self.left[..end];
        self.left = &self.left[end + 1..];
        Some(picture)
    }
}

// Where the first picture ends, if any does.
fn end_of(layout: &[u8]) -> Option<usize>
    ensures { result ≡ position ends layout.now }
{
    layout.iter().position(|b| *b == b';')
}

// How many pictures the layout has.
fn count_of(layout: &[u8]) -> usize
    ensures { result ≡ length (pictures layout.now) }
{
    Pictures::of(layout).count()
}

// A layout that is empty isn't ended by `;`.
fn is_closed(layout: &[u8]) -> bool
    ensures { result ≡ closes false layout.now }
{
    layout.ends_with(b";")
}

// RULES 5.1: COUNT is given where this fails.
pub(crate) fn count_fits(layout: &[u8]) -> bool
    ensures { result ≡ count_fits layout.now }
{
    if MOST_LAYOUT < layout.len() {
        return false;
    }
    is_closed(layout) && count_of(layout) <= MOST_PICTURES
}
