// From picture text to symbols: one walk over the bytes, whose state is what has been read of a factor.
#![tactic(auto)]

ghost use Rattle.std.specs.Prelude.{◌≡◌, [], ◌<◌, ◌≤◌, length, replicate};
ghost use Rattle.rules.specs.Text.{text_fits, is_symbol, repeats, allows, is_plain, next, copies, room_of, most_text, most_copies};
ghost use Rattle.text.specs.Expansion.{expanded_of, filled, spelled_of};

use roles::marks::mark_at;
use rules::{Mode, Picture, Refusal};

#[tactic(auto, using(std::proofs::lemmas::Bool::Decides::nat_tests), unfolding(rules::specs::Words::has))]
fn is_symbol(b: u8) -> bool
    ensures { result ≡ is_symbol b }
{
    matches!(b, b'9' | b'Z' | b'*' | b'V' | b'T' | b'I' | b'R')
        || matches!(b, b',' | b'.' | b'/' | b'B')
        || matches!(b, b'S' | b'+' | b'-' | b'$')
}

// What a factor may repeat: every symbol of one byte but V and R.
#[tactic(auto, using(std::proofs::lemmas::Bool::Decides::nat_tests), unfolding(rules::specs::Words::has))]
fn can_repeat(b: u8) -> bool
    ensures { result ≡ repeats b }
{
    is_symbol(b) && !matches!(b, b'V' | b'R')
}

#[tactic(auto, using(std::proofs::lemmas::Bool::Decides::nat_tests))]
fn is_allowed(n: usize, b: u8) -> bool
    ensures { result ≡ allows n b }
{
    can_repeat(b) && (1..=Picture::MOST_COPIES).contains(&n)
}

// What has been read of a factor after one byte more. A byte that isn't allowed stays a mode, since `next` of
// the rules has it so.
#[tactic(auto, using(std::proofs::lemmas::Bool::Decides::nat_tests), unfolding(rules::specs::Text::next))]
fn step(mode: Mode, b: u8) -> Mode
    ensures { result ≡ next mode b }
{
    match (mode, b) {
        (Mode::Plain, b'(') => Mode::Opened,
        (Mode::Plain, _) if is_symbol(b) => Mode::Plain,
        (Mode::Opened, b'0'..=b'9') => Mode::OneDigit(b - b'0'),
        (Mode::OneDigit(n), b')') => Mode::Closed(n as usize),
        (Mode::OneDigit(n), b'0'..=b'9') => {
            Mode::TwoDigits(n as usize * 10 + (b - b'0') as usize)
        }
        (Mode::TwoDigits(n), b')') => Mode::Closed(n),
        (Mode::Closed(n), _) if is_allowed(n, b) => Mode::Plain,
        _ => Mode::Spoilt,
    }
}

// How many symbols the byte gives. A factor is judged where it is used, so this is at most 64.
#[tactic(auto, using(std::proofs::lemmas::Bool::Decides::nat_tests), unfolding(rules::specs::Text::copies))]
fn count_of(mode: Mode, b: u8) -> usize
    ensures { (result ≡ copies mode b) × (result ≤ most_copies) }
{
    match mode {
        Mode::Plain if b != b'(' => 1,
        Mode::Closed(n) if is_allowed(n, b) => n,
        _ => 0,
    }
}

fn is_plain(mode: Mode) -> bool
    ensures { result ≡ is_plain mode }
{
    matches!(mode, Mode::Plain)
}

// The empty picture.
#[tactic(auto, unfolding(rules::specs::Text::room_of))]
pub fn no_symbols() -> Picture
    ensures { result ≡ room_of [] }
{
    Picture {
        symbols: [0; Picture::MOST_SYMBOLS],
        count: 0,
    }
}

// n copies of b behind what the room holds; what falls outside is counted and dropped.
fn put(picture: &mut Picture, b: u8, n: usize)
    requires { (picture.old.count < 65536) × (n ≤ most_copies) }
    ensures { picture.new ≡ filled picture.old (replicate n b) }
{
    let room = Picture::MOST_SYMBOLS;
    let end = picture.count + n;
    picture.symbols[picture.count.min(room)..end.min(room)].fill(b);
    picture.count = end;
}

// The walk, which judges every byte before symbols are counted (RULES 1.5): a count above 64 says how many
// there would have been.
fn spell(text: &[u8]) -> Result<Picture, Refusal>
    requires { length text.now ≤ most_text }
    ensures { result ≡ spelled_of text.now }
{
    let mut mode = Mode::Plain;
    let mut picture = no_symbols();
    for (i, &b) in text.iter().enumerate() {
        if is_plain(mode) && mark_at(text, i) {
            put(&mut picture, b, 1);
            put(&mut picture, text[i + 1], 1);
            return Ok(picture);
        }
        put(&mut picture, b, count_of(mode, b));
        mode = step(mode, b);
    }
    if !is_plain(mode) {
        return Err(Refusal::Symbol);
    }
    Ok(picture)
}

// RULES 1.1: from 1 byte to 128.
#[tactic(auto, unfolding(rules::specs::Text::text_fits))]
fn text_fits(text: &[u8]) -> bool
    ensures { result ≡ text_fits text.now }
{
    (1..=Picture::MOST_TEXT).contains(&text.len())
}

// The symbols of a text in their room; or the refusal of its length, of a byte or factor anywhere in it, or
// of over 64 symbols.
pub fn expand(text: &[u8]) -> Result<Picture, Refusal>
    ensures { result ≡ expanded_of text.now }
{
    if !text_fits(text) {
        return Err(Refusal::Text);
    }
    let picture = spell(text)?;
    if Picture::MOST_SYMBOLS < picture.count {
        return Err(Refusal::Long);
    }
    Ok(picture)
}
