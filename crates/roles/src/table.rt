// What positions print, in one table, for whoever writes many of them: naming a table copies it, so one copy
// is taken and lent. The calls take any table; by this one they answer what RULES 3.10 to 3.12 say
// (proofs/ByTable.antt).
ghost use Rattle.std.specs.Prelude.{◌≡◌};
ghost use Rattle.roles.specs.Table.{characters, figure_by, mark_by};

use super::figures::list_of;

// Fifteen characters with plus, fifteen with minus, and three lists of ten.
pub type Characters = [u8; 60];

// The characters of the roles that are no digits with plus, the same with minus, where CR and DB are written
// as these letters, and behind them the three lists of digits.
const CHARACTERS: Characters = *b"   ++ $,./        - -$,./ CRDB0123456789{ABCDEFGHI}JKLMNOPQR";

pub fn character_table() -> Characters
    ensures { result ≡ characters }
{
    CHARACTERS
}

// The character of a role that is no digit, and of a drifting symbol by the kind. A role past the marks has
// none: 0. Reading, which has no table on its stack, asks `mark_of` of marks.rt.
pub fn mark_by(table: &Characters, role: u8, negative: bool) -> u8
    ensures { result ≡ mark_by table.now role negative }
{
    let row: usize = if negative { 15 } else { 0 };
    let column = usize::from(role);
    if column < 15 {
        return table[row + column];
    }
    0
}

// What the digit d prints. Past the lists there is 0.
pub fn figure_by(table: &Characters, role: u8, negative: bool, d: u8) -> u8
    ensures { result ≡ figure_by table.now role negative d }
{
    let at = 30 + 10 * usize::from(list_of(role, negative)) + usize::from(d);
    if at < 60 {
        return table[at];
    }
    0
}
