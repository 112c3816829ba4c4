// From symbols to form: what a picture means. Each public function takes the picture by value, the form that
// the customers ask for (docs/DECISIONS.md, "Forms"), and lends its symbols to the others.
#![tactic(auto)]

ghost use Rattle.std.specs.Prelude.{◌≡◌, ◌==◌, ◌&&◌, ◌+◌, ◌≤◌, ◌<◌, [], length};
ghost use Rattle.std.specs.List.{position_or_len};
ghost use Rattle.rules.specs.Words.{times};
ghost use Rattle.rules.specs.Text.{the_v, most_symbols, held_in};
ghost use Rattle.rules.specs.Form.{number, numbers, suppresses, kind_of, of_kind, formed, form_of, form_in};
ghost use Rattle.rules.specs.Shape.{one_v, one_drifts, suppression_apart};
ghost use Rattle.form.specs.Rooms.{begun, role_of, placed_in, finished, meaning_of, meant, kind_letter, mark_number};

use roles::marks::mark_at;
use rules::{FormRef, Picture};

// A form: the roles of its positions with their number, the positions before V, and the kind. The roles have
// a room of 64, since no memory is allocated; roles and kinds stay bytes, since a plan has them so (RULES
// 5.3).
#[derive(Clone, Copy)]
pub struct Meaning {
    pub roles: [u8; Picture::MOST_SYMBOLS],
    pub size: usize,
    pub vee: usize,
    pub kind: u8,
}

impl Meaning {
    // The form, lent. No form has more than 64 positions, so the guard changes none.
    pub fn lent(&self) -> FormRef<'_>
        ensures { form_in result ≡ meant self.now }
    {
        FormRef {
            roles: &self.roles[..self.size.min(Picture::MOST_SYMBOLS)],
            vee: self.vee,
            kind: self.kind,
        }
    }
}

// The symbols that the room holds; a count over 64 means all of it.
#[tactic(auto, using(crate::proofs::Lent::guarded), unfolding(rules::specs::Text::held_in))]
fn held(picture: &Picture) -> &[u8]
    ensures symbols { result.now ≡ held_in picture.now }
    ensures few { length result.now ≤ most_symbols }
{
    &picture.symbols[..picture.count.min(Picture::MOST_SYMBOLS)]
}

// How often the symbol stands among these.
#[tactic(auto, using(crate::proofs::Symbols::tally_is))]
fn tally(symbols: &[u8], symbol: u8) -> usize
    ensures { result ≡ times symbol symbols.now }
{
    symbols.iter().filter(|s| **s == symbol).count()
}

// The positions before V; all of them if there is none.
fn vee_of(symbols: &[u8]) -> usize
    ensures { result ≡ position_or_len (λ s. s == the_v) symbols.now }
{
    symbols.iter().take_while(|s| **s != b'V').count()
}

// RULES 2.5: one V at most.
#[tactic(auto, unfolding(rules::specs::Shape::one_v))]
pub fn one_v(picture: Picture) -> bool
    ensures { result ≡ one_v (held_in picture) }
{
    tally(held(&picture), b'V') <= 1
}

// The symbol of a kind.
#[tactic(auto, unfolding(crate::specs::Rooms::kind_letter))]
fn letter_of(kind: u8) -> u8
    requires { (1 ≤ kind) × (kind ≤ 6) }
    ensures { result ≡ kind_letter kind }
{
    match kind {
        1 => b'Z',
        2 => b'*',
        3 => b'S',
        4 => b'+',
        5 => b'-',
        _ => b'$',
    }
}

// Z and * suppress wherever they stand; S, +, - and $ where they stand twice or more.
fn does_suppress(symbols: &[u8], kind: u8) -> bool
    requires { (1 ≤ kind) × (kind ≤ 6) }
    ensures { result ≡ suppresses kind (numbers symbols.now) }
{
    let enough = if kind <= 2 { 1 } else { 2 };
    enough <= tally(symbols, letter_of(kind))
}

// The kind, the last one that suppresses; 0 where none does.
fn kind_of(symbols: &[u8]) -> u8
    ensures { result ≡ kind_of (numbers symbols.now) }
{
    for kind in (1..=6).rev() {
        if does_suppress(symbols, kind) {
            return kind;
        }
    }
    0
}

// RULES 2.6 and 2.7: of the six kinds one suppresses at most.
pub fn one_suppresses(picture: Picture) -> bool
    ensures { result ≡ (one_drifts (held_in picture) && suppression_apart (held_in picture)) }
{
    let symbols = held(&picture);
    let mut kinds = 0;
    for kind in 1..=6 {
        kinds += u8::from(does_suppress(symbols, kind));
    }
    kinds <= 1
}

// The number of a symbol that is no V and no mark; any other byte gets 18. The numbers 11 to 14 are those of
// the marks' letters.
#[tactic(auto, using(std::proofs::lemmas::Bool::Decides::nat_tests), unfolding(rules::specs::Form::number, rules::specs::Words::has, rules::specs::Words::place))]
fn number_of(symbol: u8) -> u8
    ensures { result ≡ number symbol }
{
    match symbol {
        b'9' => 0,
        b'Z' => 1,
        b'*' => 2,
        b'S' => 3,
        b'+' => 4,
        b'-' => 5,
        b'$' => 6,
        b',' => 7,
        b'.' => 8,
        b'/' => 9,
        b'B' => 10,
        b'T' => 15,
        b'I' => 16,
        b'R' => 17,
        _ => 18,
    }
}

// The number of a mark's first letter.
#[tactic(auto, using(std::proofs::lemmas::Bool::Decides::nat_tests), unfolding(crate::specs::Rooms::mark_number))]
fn mark_number(letter: u8) -> u8
    ensures { (result ≡ mark_number letter) × (result < 14) }
{
    if letter == b'C' { 11 } else { 13 }
}

fn is_of_kind(kind: u8, number: u8) -> bool
    ensures { result ≡ of_kind kind number }
{
    kind != 0 && number == kind
}

#[tactic(auto, using(std::proofs::lemmas::Bool::Decides::nat_tests), unfolding(crate::specs::Rooms::role_of))]
fn role_of(kind: u8, met: bool, number: u8) -> u8
    ensures { result ≡ role_of kind met number }
{
    if !is_of_kind(kind, number) {
        return number;
    }
    if met { 1 } else { 2 }
}

// A form whose positions are placed one after the other, and whether a symbol of its kind has gone before;
// under Z and * that holds from the start.
#[derive(Clone, Copy)]
pub struct Placed {
    pub form: Meaning,
    pub met: bool,
}

impl Placed {
    // No position yet.
    #[tactic(auto, unfolding(crate::specs::Rooms::begun, crate::specs::Rooms::meaning_of))]
    fn new(vee: usize, kind: u8) -> Placed
        ensures { result ≡ begun vee kind }
    {
        let form = Meaning {
            roles: [0; Picture::MOST_SYMBOLS],
            size: 0,
            vee,
            kind,
        };
        Placed {
            form,
            met: kind <= 2,
        }
    }

    // One position more, whose symbol has this number.
    #[tactic(auto, unfolding(crate::specs::Rooms::placed_in))]
    fn place(&mut self, number: u8)
        requires { self.old.form.size < most_symbols }
        ensures { self.new ≡ placed_in self.old number }
    {
        let kind = self.form.kind;
        let at = self.form.size;
        self.form.roles[at] = role_of(kind, self.met, number);
        self.form.size = at + 1;
        self.met |= is_of_kind(kind, number);
    }

    // The positions of these symbols.
    fn place_all(&mut self, symbols: &[u8])
        requires { self.old.form.size + length symbols.now ≤ most_symbols }
        ensures { self.new.form ≡ finished self.old (numbers symbols.now) }
    {
        for (i, &symbol) in symbols.iter().enumerate() {
            if mark_at(symbols, i) {
                let first = mark_number(symbol);
                self.place(first);
                self.place(first + 1);
                return;
            }
            if symbol != b'V' {
                self.place(number_of(symbol));
            }
        }
    }
}

// The form that a picture means.
pub fn form_of(picture: Picture) -> Meaning
    ensures { result ≡ meaning_of (form_of (held_in picture)) }
{
    let symbols = held(&picture);
    let mut placed = Placed::new(vee_of(symbols), kind_of(symbols));
    placed.place_all(symbols);
    placed.form
}
