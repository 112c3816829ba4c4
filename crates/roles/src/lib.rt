// What a role is, and the characters that roles show. Every byte has an answer, so that no call has to ask
// first whether it is a role.
#![tactic(auto)]

pub mod figures; // figures.rt: the characters of digits
pub mod marks; // marks.rt: the other characters
pub mod table; // table.rt: all characters that positions print, as a table to be lent

ghost use Rattle.std.specs.Prelude.{◌≡◌};
ghost use Rattle.rules.specs.Roles.{is_punched, is_nine, is_digit, is_bare, is_b, opens, is_sign, drifts, drifts_sign};

// T, I and R; a byte past the roles counts as one, and no form with it is good.
#[tactic(auto, unfolding(rules::specs::Roles::is_punched))]
pub fn is_punched(role: u8) -> bool
    ensures { result ≡ is_punched role }
{
    15 <= role
}

#[tactic(auto, unfolding(rules::specs::Roles::is_nine))]
pub fn is_nine(role: u8) -> bool
    ensures { result ≡ is_nine role }
{
    (role == 0) | is_punched(role)
}

pub fn is_digit(role: u8) -> bool
    ensures { result ≡ is_digit role }
{
    is_bare(role) | is_punched(role)
}

// A digit over which nothing is punched.
pub fn is_bare(role: u8) -> bool
    ensures { result ≡ is_bare role }
{
    role <= 1
}

// The insertion B; the second letter of DB has a role of its own.
#[tactic(auto, unfolding(rules::specs::Roles::is_b))]
pub fn is_b(role: u8) -> bool
    ensures { result ≡ is_b role }
{
    role == 10
}

// RULES 3.9: the stretch may begin here.
pub fn does_open(role: u8) -> bool
    ensures { result ≡ opens role }
{
    matches!(role, 1 | 2)
}

// S, + and -, CR and DB by their first letters, and what is punched over a digit.
#[tactic(auto, unfolding(rules::specs::Roles::is_sign))]
pub fn is_sign(role: u8) -> bool
    ensures { result ≡ is_sign role }
{
    matches!(role, 3..=5 | 11 | 13) | is_punched(role)
}

#[tactic(auto, unfolding(rules::specs::Roles::drifts))]
pub fn does_drift(kind: u8) -> bool
    ensures { result ≡ drifts kind }
{
    matches!(kind, 3..=6)
}

// The same without $. A range each is plainer than one function of ranges.
#[tactic(auto, unfolding(rules::specs::Roles::drifts_sign))]
pub fn sign_drifts(kind: u8) -> bool
    ensures { result ≡ drifts_sign kind }
{
    matches!(kind, 3..=5)
}
