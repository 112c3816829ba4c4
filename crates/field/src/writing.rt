// The characters of a field, written straight into the lent bytes. They come from the right: each digit comes
// off the magnitude, and where positions can be hidden one is as long as nothing is left of it. What holds no
// digit to take off, the marks before the first digit and a field in which everything is suppressed, is
// written from the left. Each byte is written once.
// The loops go by index: of bytes that an iterator lends, a proof knows afterwards how many there are alone.
ghost use Rattle.std.specs.Prelude.{◌≡◌, ℕ, ◌≤◌, length, get_or};
ghost use Rattle.std.proofs.lemmas.List.Edits.{sets};
ghost use Rattle.rules.specs.Search.{up_to};
ghost use Rattle.rules.specs.Form.{form_in};
ghost use Rattle.rules.specs.Edit.{suppressed};
ghost use Rattle.roles.specs.Table.{mark_by};
ghost use Rattle.field.specs.Results.{left_at, printed_at, shown_at};
ghost use Rattle.field.specs.Steps.{Between, step_of};

use super::reach::{lead_of, reach_of};
use roles::marks::{chosen, suppressed_of};
use roles::table::{Characters, figure_by, mark_by};
use roles::{does_drift, is_b, is_bare, is_punched};
use rules::{FormRef, Picture};

// Digits come off by the table of powers.
const TEN: u64 = Picture::POWERS[1];

// What one position prints, and what is then left of the magnitude for those before.
#[derive(Clone, Copy)]
pub(crate) struct Step {
    pub prints: u8,
    pub left: u64,
}

// What stands over all positions of a field. The bytes that its methods take are those of the whole field.
#[derive(Clone, Copy)]
pub(crate) struct Writer<'a> {
    pub table: &'a Characters,
    pub form: FormRef<'a>,
    pub negative: bool,
}

impl Writer<'_> {
    // RULES 3.10 to 3.12: a digit's position takes the last digit off what is left of the magnitude. A bare
    // digit goes round the table, since most digits are bare.
    fn step(self, role: u8, left: u64) -> Step
        ensures { result ≡ step_of self.entry.table.now role self.entry.negative left }
    {
        if is_bare(role) {
            return Step {
                prints: b'0' + (left % TEN) as u8,
                left: left / TEN,
            };
        }
        if is_punched(role) {
            let digit = (left % TEN) as u8;
            return Step {
                prints: figure_by(self.table, role, self.negative, digit),
                left: left / TEN,
            };
        }
        Step {
            prints: mark_by(self.table, role, self.negative),
            left,
        }
    }

    // The positions from the end down to `to`, which all print. With the characters of those before `to` set
    // too, the bytes would hold the whole field. What is left of the magnitude comes back.
    fn print_down(self, magnitude: u64, field: &mut [u8], to: usize) -> u64
        requires { (to ≤ length self.form.roles.now) × (length field.old ≡ length self.form.roles.now) }
        ensures left { result ≡ left_at self.entry.form.roles.now magnitude to }
        ensures room { length field.new ≡ length field.old }
        ensures memory { (shows : ℕ → ℕ) → ((k : ℕ) → to ≤ k → shows k ≡ printed_at self.entry.table.now self.entry.form.roles.now self.entry.negative magnitude k)
            → sets field.new 0 (up_to to shows) ≡ sets field.old 0 (up_to (length field.old) shows) }
    {
        let mut left = magnitude;
        for k in (to..field.len()).rev() {
            let step = self.step(self.form.roles[k], left);
            field[k] = step.prints;
            left = step.left;
        }
        left
    }

    // The positions from `to` down to `lead`, where they can be hidden; `left` is left of the magnitude
    // before `to`. RULES 3.13: the drifting character waits for the first hidden position that is no B.
    fn hide_down(self, left: u64, field: &mut [u8], lead: usize, to: usize)
        requires { (lead ≤ to) × (to ≤ length self.form.roles.now) × (length field.old ≡ length self.form.roles.now) }
        ensures room { length field.new ≡ length field.old }
        ensures memory { let φ = form_in self.entry.form in (t : ℕ) → Between φ lead to → left ≡ left_at φ.roles t to
            → sets field.new 0 (up_to lead (shown_at self.entry.table.now φ self.entry.negative t))
            ≡ sets field.old 0 (up_to to (shown_at self.entry.table.now φ self.entry.negative t)) }
    {
        let kind = self.form.kind;
        let fill = suppressed_of(kind, 0);
        let mut waits = chosen(
            does_drift(kind),
            mark_by(self.table, kind, self.negative),
            fill,
        );
        let mut rest = left;
        for k in (lead..to).rev() {
            let role = self.form.roles[k];
            let step = self.step(role, rest);
            let shown = rest != 0;
            let b = is_b(role);
            field[k] = chosen(shown, step.prints, chosen(b, b' ', waits));
            waits = chosen(shown | b, waits, fill);
            rest = step.left;
        }
    }

    // The first positions, which are no digits and print.
    fn put_marks(self, field: &mut [u8], lead: usize)
        requires { (lead ≤ length self.form.roles.now) × (length field.old ≡ length self.form.roles.now) }
        ensures { field.new ≡ sets field.old 0 (up_to lead (λ k. mark_by self.entry.table.now (get_or self.entry.form.roles.now k 0) self.entry.negative)) }
    {
        for k in 0..lead {
            field[k] = mark_by(self.table, self.form.roles[k], self.negative);
        }
    }

    // RULES 3.7: every position is suppressed.
    pub(crate) fn put_blank(self, field: &mut [u8])
        requires { length field.old ≡ length self.form.roles.now }
        ensures { field.new ≡ up_to (length self.entry.form.roles.now) (λ k. suppressed self.entry.form.kind (get_or self.entry.form.roles.now k 0)) }
    {
        for k in 0..field.len() {
            field[k] = suppressed_of(self.form.kind, self.form.roles[k]);
        }
    }

    // A field in which not everything is suppressed.
    pub(crate) fn put_shown(self, magnitude: u64, field: &mut [u8])
        requires { length field.old ≡ length self.form.roles.now }
        ensures { field.new ≡ up_to (length self.entry.form.roles.now) (shown_at self.entry.table.now (form_in self.entry.form) self.entry.negative magnitude) }
    {
        let before = &self.form.roles[..self.form.vee.min(self.form.roles.len())];
        let lead = lead_of(before);
        let to = lead + reach_of(&before[lead..]);
        let left = self.print_down(magnitude, field, to);
        self.hide_down(left, field, lead, to);
        self.put_marks(field, lead);
    }
}
