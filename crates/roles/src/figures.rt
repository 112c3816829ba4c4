// The characters of digits (RULES 3.10): the list from which a digit prints, and what a character tells, the
// list in which it stands and its digit. The lists themselves are in table.rt.
ghost use Rattle.std.specs.Prelude.{◌≡◌, ◌<◌};
ghost use Rattle.rules.specs.Text.{is_decimal};
ghost use Rattle.rules.specs.Edit.{list_of};
ghost use Rattle.rules.specs.Candidate.{digit_in, list_in};

// The list from which a digit prints: 0 the digit itself, 1 with a plus punched over it, 2 with a minus.
// Numbers, since they are the rows of the table in which the lists stand, and are reckoned with as such.
pub fn list_of(role: u8, negative: bool) -> u8
    ensures { result ≡ list_of role negative }
{
    match role {
        15 => if negative { 2 } else { 1 },
        16 => if negative { 0 } else { 1 },
        17 => if negative { 2 } else { 0 },
        _ => 0,
    }
}

// The character is a digit itself.
pub fn is_decimal(c: u8) -> bool
    ensures { result ≡ is_decimal c }
{
    c.is_ascii_digit()
}

// What a character is worth as a digit, from whichever list; one that is in none is worth 0. Each list but
// for its braces is a range of the character set, so that the table need not be searched.
pub fn digit_in(c: u8) -> u8
    ensures { (result ≡ digit_in c) × (result < 10) }
{
    match c {
        b'0'..=b'9' => c - b'0',
        b'A'..=b'I' => c - b'A' + 1,
        b'J'..=b'R' => c - b'J' + 1,
        _ => 0,
    }
}

// The list in which a character stands; 3, the row past the last, where it stands in none, so that one
// comparison of bytes tells whether that is the list of a role.
pub fn list_in(c: u8) -> u8
    ensures { result ≡ list_in c }
{
    match c {
        b'0'..=b'9' => 0,
        b'{' | b'A'..=b'I' => 1,
        b'}' | b'J'..=b'R' => 2,
        _ => 3,
    }
}
