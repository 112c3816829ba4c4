// The rules of docs/RULES.md as definitions (specs/), with the laws that every other crate cites (proofs/).
// The types that the definitions speak of stand here with the limits, so that every crate shares them; what
// functions there are tie the limits to the definitions.
#![tactic(auto)]

ghost use Rattle.std.specs.Prelude.{◌≡◌, [], ◌∷◌, ◌^◌};
ghost use Rattle.rules.specs.Text.{most_text, most_copies, most_symbols};
ghost use Rattle.rules.specs.Shape.{most_digits};
ghost use Rattle.rules.specs.Edit.{most_scale};
ghost use Rattle.rules.specs.Powers.{powers};
ghost use Rattle.rules.specs.Refusals.{refusal_number};

// Why a call refuses (RULES 6.1), with the number of each.
#[derive(Clone, Copy, PartialEq, Eq)]
pub enum Refusal {
    Text = 1,
    Symbol = 2,
    Long = 3,
    Shape = 4,
    Digits = 5,
    Value = 6,
    Room = 7,
    Size = 8,
    Length = 9,
    Conversion = 10,
    Count = 11,
    Plan = 12,
    Input = 13,
    Full = 14,
}

impl From<Refusal> for u8 {
    ghost from_gives = { λ refusal n. n ≡ refusal_number refusal };

    fn from(refusal: Refusal) -> u8 {
        refusal as u8
    }
}

// A refusal by a call on a layout, a plan or a sheet, with the field that it lies in, from 1, or 0 (RULES
// 6.3).
#[derive(Clone, Copy, PartialEq, Eq)]
pub struct Refused {
    pub refusal: Refusal,
    pub field: u8,
}

// A refusal of the whole lies in no field.
impl From<Refusal> for Refused {
    ghost from_gives = { λ refusal refused. refused ≡ record { refusal = refusal; field = 0 } };

    fn from(refusal: Refusal) -> Refused {
        Refused { refusal, field: 0 }
    }
}

// A form that is lent, as its parts: the roles of its positions, how many of them stand before V, and the
// kind. Roles and kind are bytes, as a plan has them (RULES 5.3), and any bytes and any number may stand
// here; what is no picture's form is told from one where it is judged.
#[derive(Clone, Copy)]
pub struct FormRef<'a> {
    pub roles: &'a [u8],
    pub vee: usize,
    pub kind: u8,
}

// The four numbers of an answer (RULES 6.2 to 6.4), which C gets packed. A refusal has its number, the field
// it lies in or 0, length 0 and value 0; number 0 is success, with the call's length and, where a single
// field is read, its value.
#[derive(Clone, Copy)]
pub struct Answer {
    pub number: u8,
    pub field: u8,
    pub length: usize,
    pub value: i64,
}

// The symbols of a picture with their count, in a room of 64 (RULES 1.6): the form that the customers name.
// Places behind the count are 0.
#[derive(Clone, Copy)]
pub struct Picture {
    pub symbols: [u8; Picture::MOST_SYMBOLS],
    pub count: usize,
}

// The powers of ten from 1 to the first magnitude that is out of range.
pub type Powers = [u64; Picture::MOST_DIGITS + 1];

// The limits of a picture and of its values. Digits, scale and magnitude go by one number, up to which the
// powers go. It can't be more than 18, since not every number of 19 digits fits 64 bits with a sign.
impl Picture {
    // digits (RULES 2.13)
    pub const MOST_DIGITS: usize = 18;

    // the scale of a value (RULES 3.1)
    pub const MOST_SCALE: usize = Picture::MOST_DIGITS;

    // A table, since the language has no operator for a power. A use of it copies it to the stack, so a
    // function takes one copy and reads from that, or is lent one; where one place alone is read, as the ten,
    // a compiler copies nothing.
    pub const POWERS: Powers = [
        1,
        10,
        100,
        1_000,
        10_000,
        100_000,
        1_000_000,
        10_000_000,
        100_000_000,
        1_000_000_000,
        10_000_000_000,
        100_000_000_000,
        1_000_000_000_000,
        10_000_000_000_000,
        100_000_000_000_000,
        1_000_000_000_000_000,
        10_000_000_000_000_000,
        100_000_000_000_000_000,
        1_000_000_000_000_000_000,
    ];

    // the first magnitude that is out of range (RULES 3.1)
    pub const LIMIT: u64 = Picture::POWERS[Picture::MOST_DIGITS];

    // bytes of a text (RULES 1.1)
    pub const MOST_TEXT: usize = 128;

    // what a factor may be worth (RULES 1.4)
    pub const MOST_COPIES: usize = 64;

    // symbols, and so positions (RULES 1.5)
    pub const MOST_SYMBOLS: usize = 64;

    // What ties the constants to the definitions: the numbers, one after the other, are those of specs/, and
    // the table is the one that its rule makes. Code has no use for the two.
    pub fn limits() -> [u64; 6]
        ensures { result ≡ most_digits ∷ most_scale ∷ 10 ^ most_digits ∷ most_text ∷ most_copies ∷ most_symbols ∷ [] }
    {
        [
            Picture::MOST_DIGITS as u64,
            Picture::MOST_SCALE as u64,
            Picture::LIMIT,
            Picture::MOST_TEXT as u64,
            Picture::MOST_COPIES as u64,
            Picture::MOST_SYMBOLS as u64,
        ]
    }

    pub fn powers() -> Powers
        ensures { result ≡ powers }
    {
        Picture::POWERS
    }
}

// Of a layout, its pictures and its bytes (RULES 5.1); of the lister, the bytes of its input (8.2).
pub const MOST_PICTURES: usize = 32;

pub const MOST_LAYOUT: usize = 4128;

pub const MOST_INPUT: usize = 65536;

// What becomes of a fraction that a picture has no places for (RULES 3.2).
#[derive(Clone, Copy)]
pub enum Rounding {
    // a half or more counts as one, away from zero under either sign
    HalfAway,
    // every fraction goes, toward zero
    Cut,
}

// What has been read of a factor, in going through a picture text.
#[derive(Clone, Copy)]
pub enum Mode {
    // nothing: a symbol, a factor or a mark may come
    Plain,
    // its parenthesis
    Opened,
    // one digit, or two, and what they are worth
    OneDigit(u8),
    TwoDigits(usize),
    // all of it: the symbol to repeat must come
    Closed(usize),
    // a byte or a factor that isn't allowed
    Spoilt,
}
