// The pass over a form's roles: one table step and one weight a role.
ghost use Rattle.std.specs.Prelude.{◌&&◌, ◌+◌, ◌*◌, ◌<◌, ◌≤◌, ◌≡◌, leb, length};
ghost use Rattle.rules.specs.Form.{form_in};
ghost use Rattle.rules.specs.Good.{fits_room};
ghost use Rattle.rules.specs.Shape.{most_digits};
ghost use Rattle.shape.specs.Machine.{born_out, column_of, digits_in, dollars_in, drifting_in, found_by, found_in, good_by, machine, signs_in, started, suppressible_in, walked_all, weights};

use crate::Judged;
use crate::tables::{NEXT, WEIGHT};
use rules::{FormRef, Picture};

const LAST_KIND: u8 = 6;

// The column of the bytes that are no role.
const LAST_COLUMN: u8 = 18;

const MOST_DIGITS: u64 = Picture::MOST_DIGITS as u64;

// From this phase on no rule is broken and no mark broken off.
const UNBROKEN: usize = 57;

// What a walk over roles found.
#[derive(Clone, Copy)]
struct Walked {
    pub phase: usize,
    pub sum: u64,
}

// The counts that the sum holds.
impl Walked {
    fn digits(self) -> u64
        ensures { result ≡ digits_in self.sum }
    {
        self.sum % 128
    }

    fn digits_fit(self) -> bool
        ensures { result ≡ (leb 1 (digits_in self.sum) && leb (digits_in self.sum) most_digits) }
    {
        (1..=MOST_DIGITS).contains(&self.digits())
    }

    fn suppressible(self) -> u64
        ensures { result ≡ suppressible_in self.sum }
    {
        self.sum / 128 % 128
    }

    fn signs(self) -> u64
        ensures { result ≡ signs_in self.sum }
    {
        self.sum / 16384 % 128
    }

    fn dollars(self) -> u64
        ensures { result ≡ dollars_in self.sum }
    {
        self.sum / 2097152 % 128
    }

    fn drifting(self) -> u64
        ensures { result ≡ drifting_in self.sum }
    {
        self.sum / 268435456
    }
}

// The judge's two tables, which are copied once for many forms. By any two tables it finds what the pass by
// these finds, and by those that `new` gives what the rules say (proofs/Found.antt).
#[derive(Drop)]
pub struct Judge {
    pub next: [u8; 285],
    pub weight: [u32; 19],
}

impl Judge {
    pub fn new() -> Judge
        ensures next { result.next ≡ machine }
        ensures weight { result.weight ≡ weights }
    {
        Judge {
            next: NEXT,
            weight: WEIGHT,
        }
    }

    // What stands behind these roles.
    fn walk(&self, roles: &[u8], from: Walked) -> Walked
        requires { (from.phase < 256) × (from.sum + 4294967296 * length roles.now < 18446744073709551616) }
        ensures { (result ≡ walked_all self.now.next self.now.weight from roles.now) × (result.phase < 256) × (result.sum ≤ from.sum + 4294967296 * length roles.now) }
    {
        let mut phase = from.phase;
        let mut sum = from.sum;
        for &role in roles {
            let column = column(role);
            phase = self.next[phase + column] as usize;
            sum += self.weight[column] as u64;
        }
        Walked { phase, sum }
    }

    // What the pass finds of the form. It is drawn into its callers, which spares the stack a frame.
    #[inline(always)]
    pub fn judge(&self, form: FormRef<'_>) -> Judged
        ensures { result ≡ found_by self.now.next self.now.weight (form_in form.entry) }
    {
        let n = form.roles.len();
        if n > Picture::MOST_SYMBOLS {
            return Judged {
                shaped: false,
                digits: false,
            };
        }
        let (before, behind) = form.roles.split_at(form.vee.min(n));
        let at = self.walk(before, start(form.kind));
        let end = self.walk(behind, at);
        Judged {
            shaped: is_shaped(form.kind, at, end),
            digits: end.digits_fit(),
        }
    }

    // Whether the pass takes the form for that of an accepted picture. A kind of its own, judged by other
    // rules, has its place behind the first test.
    #[tactic(auto, unfolding(crate::specs::Machine::good_by))]
    pub fn is_good(&self, form: FormRef<'_>) -> bool
        ensures { result ≡ good_by self.now.next self.now.weight (form_in form.entry) }
    {
        if form.kind > LAST_KIND || !fits_room(form.roles.len(), form.vee) {
            return false;
        }
        let found = self.judge(form);
        found.shaped && found.digits
    }
}

// The column of a role.
#[tactic(auto, unfolding(crate::specs::Machine::column_of))]
fn column(role: u8) -> usize
    ensures { (result ≡ column_of role) × (result < 19) }
{
    role.min(LAST_COLUMN) as usize
}

// Kinds 3 to 6 are to meet the first drifting symbol, and a drifting sign or $ counts as one.
fn start(kind: u8) -> Walked
    ensures { (result ≡ started kind) × (result.phase < 256) × (result.sum < 4294967296) }
{
    match kind {
        0..=2 => Walked { phase: 133, sum: 0 },
        3..=5 => Walked {
            phase: 76,
            sum: 16384,
        },
        6 => Walked {
            phase: 76,
            sum: 2097152,
        },
        _ => Walked { phase: 76, sum: 0 },
    }
}

// Some digit is suppressible exactly when the kind says so.
fn born_out(kind: u8, borne: bool) -> bool
    ensures { result ≡ born_out kind borne }
{
    borne != (kind == 0)
}

// The rules that the phases hold, at V and at the end, and those that are counts.
#[tactic(auto, unfolding(crate::specs::Machine::found_in))]
fn is_shaped(kind: u8, at: Walked, end: Walked) -> bool
    ensures { result ≡ (found_in kind at end).shaped }
{
    UNBROKEN <= at.phase
        && UNBROKEN <= end.phase
        && end.signs() <= 1
        && end.dollars() <= 1
        && born_out(kind, 1 <= end.suppressible())
        && (end.suppressible() == at.suppressible() || end.suppressible() == end.digits())
        && end.drifting() == at.drifting()
}

// V counts among the symbols where a position stands behind it; at the end it need not be written.
#[tactic(auto, unfolding(rules::specs::Good::fits_room))]
fn fits_room(n: usize, vee: usize) -> bool
    ensures { result ≡ fits_room n vee }
{
    if vee < n {
        n < Picture::MOST_SYMBOLS
    } else {
        vee == n && n <= Picture::MOST_SYMBOLS
    }
}
