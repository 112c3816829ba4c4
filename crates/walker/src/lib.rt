// A walker over a batch (RULES 9.3): a batch that is lent and where its next record begins, in one struct, so
// that whoever walks has one thing to keep. What stands at a place is decided in `planread::batch::next`, by
// a run and a place; a walker only holds them. Its functions have no branch and no loop.
#![tactic(auto)]

ghost use Rattle.std.specs.Prelude.{◌≡◌};
ghost use Rattle.totals.specs.Batch.{NextIs, handed};

use planread::batch;
use rules::Refusal;
use totals::Bounds;

// A walker is Copy: one that is asked or moved is still there.
#[derive(Clone, Copy)]
pub struct Walker<'a> {
    pub batch: &'a [u8],
    pub place: usize,
}

impl<'a> Walker<'a> {
    // Any place is taken: `next` refuses one at which no record begins, but for the end.
    pub fn new(batch: &'a [u8], place: usize) -> Walker<'a>
        ensures { (result.batch ≡ batch.entry) × (result.place ≡ place) }
    {
        Walker { batch, place }
    }

    // The record at the walker's place, the end, PLAN or LENGTH. A record comes as its bounds in the batch.
    pub fn next(self, plan: &[u8]) -> Result<Option<Bounds>, Refusal>
        ensures { NextIs plan.now self.entry.batch.now self.entry.place (handed result) }
    {
        batch::next(plan, self.batch, self.place)
    }

    // The walker behind a record that it handed over: the place is the record's second bound.
    pub fn moved(self, place: usize) -> Walker<'a>
        ensures { (result.batch ≡ self.entry.batch) × (result.place ≡ place) }
    {
        Walker { place, ..self }
    }
}

// A walker made at the place and asked: it hands over what the run and the place do, by the contract of
// `planread::batch::next` word for word.
pub fn next_at(plan: &[u8], batch: &[u8], place: usize) -> Result<Option<Bounds>, Refusal>
    ensures { NextIs plan.now batch.now place (handed result) }
{
    Walker::new(batch, place).next(plan)
}
