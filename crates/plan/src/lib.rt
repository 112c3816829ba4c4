// Which bytes are a plan: the counts first, then each field's form by its part of the positions. Nothing is
// compiled again.
#![tactic(auto)]

pub mod walk; // walk.rt: the forms of a plan's fields

ghost use Rattle.std.specs.Prelude.{◌≡◌, ◌&&◌, ◌+◌, ◌*◌, ◌<◌, ◌≤◌, IfOk, cond, length, true};
ghost use Rattle.rules.specs.Layout.{most_pictures, record_length};
ghost use Rattle.rules.specs.Numbers.{PLAN};
ghost use Rattle.rules.specs.PlanBytes.{all_good, forms_in, is_plan};
ghost use Rattle.rules.specs.Refusals.{result_number};
ghost use Rattle.rules.proofs.PlanWalk.{field_count};
ghost use Rattle.plan.specs.Walk.{all_read};

use rules::{MOST_PICTURES, Refusal};
use shape::machine::Judge;
use walk::Forms;

// Whether each header has its form, the forms take all positions, and each is that of some accepted picture.
fn all_good(headers: &[u8], positions: &[u8]) -> bool
    ensures { result ≡ all_read headers.now positions.now }
{
    let judge = Judge::new();
    let mut fields = 0;
    let mut length = 0;
    for form in (Forms { headers, positions }) {
        if !judge.is_good(form) {
            return false;
        }
        fields += 1;
        length += form.roles.len();
    }
    3 * fields == headers.len() && length == positions.len()
}

// Whether these bytes are the plan of some accepted layout.
pub fn is_plan(bytes: &[u8]) -> bool
    ensures { result ≡ is_plan bytes.now }
{
    let [count, rest @ ..] = bytes else {
        return false;
    };
    let count = *count as usize;
    if !(1..=MOST_PICTURES).contains(&count) {
        return false;
    }
    let Some((headers, rest)) = rest.split_at_checked(3 * count) else {
        return false;
    };
    let [high, low, positions @ ..] = rest else {
        return false;
    };
    if u16::from_be_bytes([*high, *low]) as usize != positions.len() {
        return false;
    }
    all_good(headers, positions)
}

// Bytes that are the plan of some accepted layout.
#[derive(Clone, Copy)]
pub struct Plan<'a> {
    bytes: &'a [u8],
    pub ghost accepted: { is_plan bytes.now ≡ true },
}

impl<'a> Plan<'a> {
    ghost use Rattle.plan.specs.Walk.{forms_left};

    // PLAN where the bytes are none (RULES 6.6).
    pub fn new(bytes: &'a [u8]) -> Result<Plan<'a>, Refusal>
        ensures plan { IfOk result (λ plan. plan.bytes.now ≡ bytes.now) }
        ensures number { result_number result ≡ cond (is_plan bytes.now) 0 PLAN }
    {
        if !is_plan(bytes) {
            return Err(Refusal::Plan);
        }
        Ok(Plan { bytes })
    }

    pub fn bytes(self) -> &'a [u8]
        ensures { result.now ≡ self.entry.bytes.now }
    {
        self.bytes
    }

    pub fn field_count(self) -> usize
        ensures { result ≡ field_count self.entry.bytes.now }
    {
        self.bytes[0] as usize
    }

    // One byte for each position stands behind the headers and the counts.
    pub fn record_length(self) -> usize
        ensures { result ≡ record_length (forms_in self.entry.bytes.now) }
    {
        self.bytes.len() - (3 * self.field_count() + 3)
    }
    // The form of each field.
    pub fn forms(self) -> Forms<'a>
        ensures { forms_left result ≡ forms_in self.entry.bytes.now }
    {
        let count = self.field_count();
        Forms {
            headers: &self.bytes[1..3 * count + 1],
            positions: &self.bytes[3 * count + 3..],
        }
    }
}
