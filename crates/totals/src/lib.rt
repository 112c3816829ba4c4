// A totals sheet (RULES 9): how many records were added and, for each place of a row, the sum, least and
// greatest of its values. What an addition by a plan answers, and what a walk over a batch hands over, is
// defined here too (specs/); crate `planread` has the calls.
#![tactic(auto)]

mod sums; // sums.rt: which sums are too big, and the lesser and the greater of two numbers

ghost use Rattle.std.specs.Prelude.{◌≡◌, take};
ghost use Rattle.rules.specs.Layout.{most_pictures};
ghost use Rattle.totals.specs.Totals.{added_in, empty_sheet, row_added, with_row};
ghost use Rattle.totals.specs.Steps.{RowFits, unchanged_by};

use rules::{Answer, MOST_PICTURES, Refusal, Refused};
use sums::{first_over, greater, lesser};

// The records that a sheet takes (RULES 9.4), and the bytes of a batch (9.1).
pub const MOST_RECORDS: usize = 9000;

pub const MOST_BATCH: usize = 65536;

// What is kept of the records added (RULES 9.4). The columns stand apart, as they do in the run of bytes that
// C programs hand in (9.10).
#[derive(Clone, Copy)]
pub struct Sheet {
    pub count: usize,
    pub sums: [i64; MOST_PICTURES],
    pub least: [i64; MOST_PICTURES],
    pub greatest: [i64; MOST_PICTURES],
}

// What an addition hands back: the values that were taken, or the refusal, and the sheet beside it. Behind a
// refusal it is the sheet that was handed in.
#[derive(Clone, Copy)]
pub struct Added {
    pub outcome: Result<usize, Refused>,
    pub sheet: Sheet,
}

// What a whole batch gives: the outcome that the adding stopped with, 0 at the batch's end; the place where
// it stopped; and the sheet with those records of it that were accepted.
#[derive(Clone, Copy)]
pub struct Batched {
    pub outcome: Result<usize, Refused>,
    pub place: usize,
    pub sheet: Sheet,
}

// An answer that need not be a call's, and the sheet beside it.
#[derive(Clone, Copy)]
pub struct Answered {
    pub answer: Answer,
    pub sheet: Sheet,
}

// A record of a batch, from its first byte up to the second number.
#[derive(Clone, Copy)]
pub struct Bounds {
    pub from: usize,
    pub to: usize,
}

impl Sheet {
    // Without records every number of a sheet is 0.
    pub fn empty() -> Sheet
        ensures { result ≡ empty_sheet }
    {
        Sheet {
            count: 0,
            sums: [0; MOST_PICTURES],
            least: [0; MOST_PICTURES],
            greatest: [0; MOST_PICTURES],
        }
    }

    // One row more, of whose values 32 are taken at the most; how many is the outcome. FULL, then SIZE at the
    // first place whose sum is too big, handed in or brought. All places are judged before the first is added
    // to.
    pub fn add(mut self, row: &[i64]) -> Added
        ensures { added_in result ≡ row_added self (take most_pictures row.now) }
    {
        if MOST_RECORDS <= self.count {
            return self.unchanged(Err(Refusal::Full.into()));
        }
        let taken = &row[..row.len().min(MOST_PICTURES)];
        if let Some(place) = first_over(self.sums, taken) {
            return self.unchanged(Err(Refused {
                refusal: Refusal::Size,
                field: place as u8 + 1,
            }));
        }
        self = self.with_row(taken);
        Added {
            outcome: Ok(taken.len()),
            sheet: self,
        }
    }

    // The sheet with one record more, of these values.
    fn with_row(mut self, row: &[i64]) -> Sheet
        requires { RowFits self row.now }
        ensures { result ≡ with_row self row.now }
    {
        let first = self.count == 0;
        for (i, m) in row.iter().enumerate() {
            self.sums[i] += *m;
            self.least[i] = lesser(first, self.least[i], *m);
            self.greatest[i] = greater(first, self.greatest[i], *m);
        }
        self.count += 1;
        self
    }

    // The sheet as it was, beside a refusal, or beside 0 where there was nothing to add.
    pub fn unchanged(self, outcome: Result<usize, Refused>) -> Added
        ensures { result ≡ record { outcome = outcome; sheet = self } }
    {
        Added {
            outcome,
            sheet: self,
        }
    }

    // The same beside the numbers of an answer without a length. Any number is taken, one of no refusal too.
    pub fn unchanged_by(self, number: u8, field: u8) -> Answered
        ensures { result ≡ unchanged_by number field self }
    {
        Answered {
            answer: Answer {
                number,
                field,
                length: 0,
                value: 0,
            },
            sheet: self,
        }
    }
}
