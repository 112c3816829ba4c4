// What a call came to as the four numbers of RULES 6.2: a refusal has its number and the field that it lies
// in, or 0; a success has its length and, where a single field is read, its value.
#![tactic(auto)]

ghost use Rattle.std.specs.Prelude.{◌≡◌, pos};
ghost use Rattle.rules.specs.Refusals.{length_answer, value_answer, fields_answer};

use rules::{Answer, Refusal, Refused};

pub fn refused(number: u8, field: u8) -> Answer
    ensures { result ≡ record { number = number; field = field; length = 0; value = pos 0 } }
{
    Answer {
        number,
        field,
        length: 0,
        value: 0,
    }
}

pub fn done(length: usize, value: i64) -> Answer
    ensures { result ≡ record { number = 0; field = 0; length = length; value = value } }
{
    Answer {
        number: 0,
        field: 0,
        length,
        value,
    }
}

// Of a call on a layout, a plan or a sheet.
pub fn of_fields(outcome: Result<usize, Refused>) -> Answer
    ensures { result ≡ fields_answer outcome }
{
    match outcome {
        Ok(length) => done(length, 0),
        Err(Refused { refusal, field }) => refused(u8::from(refusal), field),
    }
}

// Of a call on one picture, which has no fields.
pub fn of_length(outcome: Result<usize, Refusal>) -> Answer
    ensures { result ≡ length_answer outcome }
{
    of_fields(outcome.map_err(Refused::from))
}

// Of a reading of one field, whose success is one number long.
pub fn of_value(outcome: Result<i64, Refusal>) -> Answer
    ensures { result ≡ value_answer outcome }
{
    match outcome {
        Ok(value) => done(1, value),
        Err(refusal) => refused(u8::from(refusal), 0),
    }
}
