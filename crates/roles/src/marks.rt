// The characters of roles that are no digits, and the marks CR and DB where a text ends in one.
ghost use Rattle.std.specs.Prelude.{◌≡◌, cond, drop};
ghost use Rattle.rules.specs.Text.{is_mark};
ghost use Rattle.rules.specs.Edit.{mark, suppressed};

use super::is_b;

pub fn chosen(test: bool, yes: u8, no: u8) -> u8
    ensures { result ≡ cond test yes no }
{
    if test { yes } else { no }
}

// RULES 3.11 and 3.12: the character of a role that is no digit, and of a drifting symbol by the kind, which
// has the number of the symbol's static role. CR and DB are compared and written as the letters of these two
// strings. T, I, R and a byte that is no role have none: 0.
pub fn mark_of(role: u8, negative: bool) -> u8
    ensures { result ≡ mark role negative }
{
    let credit = b"CR";
    let debit = b"DB";
    match role {
        0 | 1 | 2 => b' ',
        3 => chosen(negative, b'-', b'+'),
        4 => chosen(negative, b' ', b'+'),
        5 => chosen(negative, b'-', b' '),
        6 => b'$',
        7 => b',',
        8 => b'.',
        9 => b'/',
        10 => b' ',
        11 => chosen(negative, credit[0], b' '),
        12 => chosen(negative, credit[1], b' '),
        13 => chosen(negative, debit[0], b' '),
        14 => chosen(negative, debit[1], b' '),
        _ => 0,
    }
}

// RULES 3.6: what a hidden position shows, the fill, or a blank for B. The kind is asked first, so that a
// loop over a field's positions need not ask each for B where the fill is a blank.
pub fn suppressed_of(kind: u8, role: u8) -> u8
    ensures { result ≡ suppressed kind role }
{
    if kind == 2 {
        return chosen(is_b(role), b' ', b'*');
    }
    b' '
}

// RULES 1.3: the credit or the debit mark stands at i and ends the text. At the text's end and behind it
// stands none.
pub fn mark_at(text: &[u8], i: usize) -> bool
    ensures { result ≡ is_mark (drop i text.now) }
{
    i < text.len() && matches!(&text[i..], b"CR" | b"DB")
}
