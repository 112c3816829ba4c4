// A field in one pass, from left to right. Up to the first suppressible digit or drifting symbol the
// positions print; from there they are hidden up to where printing starts, a drifting symbol's character last
// but for Bs; the rest prints. The value is added up on the way, and what tells the sign, marks and a punched
// digit, is compared for plus and for minus side by side.
ghost use Rattle.std.specs.Prelude.{◌≡◌, true, ◌≤◌, ◌<◌, ◌^◌, leb, min, length, MatchOption};
ghost use Rattle.std.proofs.Math.Option.{none};
ghost use Rattle.rules.specs.Form.{form_in};
ghost use Rattle.rules.specs.Shape.{most_digits};
ghost use Rattle.rules.specs.Candidate.{read_of};
ghost use Rattle.fieldread.specs.Zones.{digit_step, mark_step, print_step, said_at, said_in, start_in, Led, HiddenTo, Unhidden, BsBetween, NoB, Stopped, sides_of};

use super::asked::Asked;
use roles::figures::{digit_in, is_decimal, list_in, list_of};
use roles::marks::{mark_of, suppressed_of};
use roles::{does_drift, does_open, is_b, is_bare, is_digit, is_nine};

// What the positions passed say: the value of their digits, and whether what tells the sign is that of plus
// and that of minus. Positions of the stretch have no part in it.
#[derive(Clone, Copy)]
pub(crate) struct Said {
    pub value: u64,
    pub plus: bool,
    pub minus: bool,
}

// What has been said before position `at`.
#[derive(Clone, Copy)]
pub(crate) struct Passed {
    pub at: usize,
    pub said: Said,
}

// The stretch up to where printing starts, which is `to`; where a symbol drifts, `last` is the last character
// in it that is no B's.
#[derive(Clone, Copy)]
pub(crate) struct Hidden {
    pub to: usize,
    pub last: u8,
}

// A bare digit more that prints, a mark more, and a position more of any kind.
impl Said {
    fn print_digit(self, c: u8) -> Said
        requires { self.value < 10 ^ most_digits }
        ensures { result ≡ digit_step self c }
    {
        Said {
            value: self.value * 10 + u64::from(digit_in(c)),
            plus: self.plus,
            minus: self.minus,
        }
    }

    fn print_mark(self, role: u8, c: u8) -> Said
        ensures { result ≡ mark_step self role c }
    {
        Said {
            value: self.value,
            plus: self.plus & (c == mark_of(role, false)),
            minus: self.minus & (c == mark_of(role, true)),
        }
    }

    fn print(self, role: u8, c: u8) -> Said
        requires { self.value < 10 ^ most_digits }
        ensures { result ≡ print_step self role c }
    {
        if !is_digit(role) {
            return self.print_mark(role, c);
        }
        let list = list_in(c);
        Said {
            value: self.value * 10 + u64::from(digit_in(c)),
            plus: self.plus & (list == list_of(role, false)),
            minus: self.minus & (list == list_of(role, true)),
        }
    }
}

impl Asked<'_> {
    // How many positions stand before V.
    fn before_vee(&self) -> usize
        ensures { result ≡ min self.now.form.vee (length self.now.form.roles.now) }
    {
        self.form.vee.min(self.form.roles.len())
    }

    // Up to V, the first nine or the opening.
    pub(crate) fn lead(&self) -> Passed
        ensures { (result.said ≡ said_at (form_in self.now.form) self.now.field.now result.at) × Led (form_in self.now.form) self.now.field.now result.at }
    {
        let end = self.before_vee();
        let mut said = Said {
            value: 0,
            plus: true,
            minus: true,
        };
        // by position, since that is what a stop hands on: `zip` under `enumerate` would read no plainer
        for at in 0..end {
            let role = self.form.roles[at];
            if is_nine(role) | does_open(role) {
                return Passed { at, said };
            }
            said = said.print_mark(role, self.field[at]);
        }
        Passed { at: end, said }
    }

    // From there on to the first character that a hidden position doesn't show, if none of V and the nines
    // comes before. The kind is read before the loop, so that one that isn't `*` is told once a field.
    fn hidden_to(&self, from: usize) -> usize
        requires { Led (form_in self.now.form) self.now.field.now from }
        ensures { HiddenTo (form_in self.now.form) self.now.field.now result × Unhidden (form_in self.now.form) self.now.field.now result }
    {
        let end = self.before_vee();
        let kind = self.form.kind;
        // by position: `zip` and `position` over the two parts take eight instructions a field more
        for k in from..end {
            let role = self.form.roles[k];
            if is_nine(role) || self.field[k] != suppressed_of(kind, role) {
                return k;
            }
        }
        end
    }

    // Past the Bs that stand with their blanks behind position `at`.
    fn past_bs(&self, at: usize) -> usize
        requires { at < start_in (form_in self.now.form) self.now.field.now }
        ensures { BsBetween (form_in self.now.form) self.now.field.now at result × NoB (form_in self.now.form) self.now.field.now result }
    {
        let end = self.before_vee();
        let kind = self.form.kind;
        // by position, as in `hidden_to`; one loop for both would need clauses over the test of the role
        for k in at + 1..end {
            let role = self.form.roles[k];
            if !is_b(role) || self.field[k] != suppressed_of(kind, role) {
                return k;
            }
        }
        end
    }

    // Whether printing starts at k, if it doesn't start before.
    fn does_start(&self, k: usize) -> bool
        requires { k ≤ start_in (form_in self.now.form) self.now.field.now }
        ensures { result ≡ leb (start_in (form_in self.now.form) self.now.field.now) k }
    {
        if self.before_vee() <= k {
            return true;
        }
        let role = self.form.roles[k];
        is_nine(role) || is_digit(role) && digit_in(self.field[k]) != 0
    }

    // The stretch, which begins at `from` if anywhere. Where there is none the field is no value's.
    pub(crate) fn hide(&self, from: usize) -> Option<Hidden>
        requires { Led (form_in self.now.form) self.now.field.now from }
        ensures { MatchOption result (read_of (form_in self.now.form) self.now.field.now ≡ none) (λ h. Stopped (form_in self.now.form) self.now.field.now from h.to h.last) }
    {
        let at = self.hidden_to(from);
        if self.does_start(at) {
            return Some(Hidden { to: at, last: b' ' });
        }
        if !does_drift(self.form.kind) || is_b(self.form.roles[at]) {
            return None;
        }
        let to = self.past_bs(at);
        let last = self.field[at];
        self.does_start(to).then_some(Hidden { to, last })
    }

    // From where printing starts to the end. A bare digit's position that shows none ends it, with no value
    // and neither sign: the field is then 0's, everything suppressed, or no value's.
    fn rest(&self, from: usize, mut said: Said) -> Said
        requires { (said ≡ said_at (form_in self.now.form) self.now.field.now from) × (start_in (form_in self.now.form) self.now.field.now ≡ from) }
        ensures { result ≡ said_in (form_in self.now.form) self.now.field.now }
    {
        let printing = self.form.roles[from..].iter().zip(&self.field[from..]);
        for (&role, &c) in printing {
            if !is_bare(role) {
                said = said.print(role, c);
                continue;
            }
            if !is_decimal(c) {
                return Said {
                    value: 0,
                    plus: false,
                    minus: false,
                };
            }
            said = said.print_digit(c);
        }
        said
    }

    // Behind the stretch of a field that `hide` lets pass. In a stretch that isn't empty the drifting
    // character is the last that is no B's.
    pub(crate) fn compared(&self, led: Passed, hidden: Hidden) -> Said
        requires { (led.said ≡ said_at (form_in self.now.form) self.now.field.now led.at) × Led (form_in self.now.form) self.now.field.now led.at × Stopped (form_in self.now.form) self.now.field.now led.at hidden.to hidden.last }
        ensures { result ≡ sides_of (form_in self.now.form) self.now.field.now }
    {
        let said = self.rest(hidden.to, led.said);
        if does_drift(self.form.kind) & (led.at < hidden.to) {
            return said.print_mark(self.form.kind, hidden.last);
        }
        said
    }
}
