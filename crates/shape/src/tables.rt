// The entries of the judge's tables, written down here alone.

// The phase behind each role: a row for each phase, named by where it begins, and in it a column for each
// role, as the row of 133 names them. The columns are all taken: a role more widens every row, so that every
// phase gets another number, here, in `start` and UNBROKEN and in the rule's definition, and it has a number
// in WEIGHT. A phase is a byte and no row may begin past 255, so the 11 rows have room for 25 columns each.
// No row begins past 190; the zeros behind its row are there so that a step from any byte stays inside the
// table.
pub(crate) const NEXT: [u8; 285] = [
    // 0: a rule is broken
    0, 0, 0, 0, 0, 0, 0, 0, 0, 0, 0, 0, 0, 0, 0, 0, 0, 0, 0,
    // 19: behind C of a mark
    0, 0, 0, 0, 0, 0, 0, 0, 0, 0, 0, 0, 57, 0, 0, 0, 0, 0, 0,
    // 38: behind D of a mark
    0, 0, 0, 0, 0, 0, 0, 0, 0, 0, 0, 0, 0, 0, 57, 0, 0, 0, 0,
    // 57: behind a whole mark
    0, 0, 0, 0, 0, 0, 0, 0, 0, 0, 0, 0, 0, 0, 0, 0, 0, 0, 0,
    // 76: nothing begun, the first drifting symbol to come
    95, 0, 152, 76, 76, 76, 76, 76, 76, 76, 76, 19, 0, 38, 0, 95, 95, 95, 0,
    // 95: a nine, the first drifting symbol to come
    95, 0, 171, 114, 114, 114, 114, 95, 95, 95, 95, 19, 0, 38, 0, 95, 95, 95, 0,
    // 114: a static symbol behind a nine, the first drifting symbol to come
    0, 0, 190, 114, 114, 114, 114, 114, 114, 114, 114, 19, 0, 38, 0, 0, 0, 0, 0,
    // 133: nothing begun
    171, // 9
    152, // suppressible digit
    0, // first drifting symbol
    133, // static S
    133, // static +
    133, // static -
    133, // static $
    133, // comma
    133, // period
    133, // slash
    133, // B
    19, // C
    0, // R of the credit mark
    38, // D
    0, // B of the debit mark
    171, // T
    171, // I
    171, // R
    0, // no role
    // 152: begun, no nine
    171, 152, 0, 190, 190, 190, 190, 152, 152, 152, 152, 19, 0, 38, 0, 171, 171, 171, 0,
    // 171: a nine
    171, 0, 0, 190, 190, 190, 190, // a static $ behind a nine
    171, 171, 171, 171, 19, 0, 38, 0, 171, 171, 171, 0,
    // 190: a static symbol behind a digit
    0, // no digit follows any more
    0, 0, 190, 190, 190, 190, 190, 190, 190, 190, 19, 0, 38, 0, 0, 0, 0, 0,
    // no row
    0, // no phase leads here
    0, 0, 0, 0, 0, 0, 0, 0, 0, 0, 0, 0, 0, 0, 0, 0, 0, 0, 0, 0, 0, 0, 0, 0, 0, 0, 0, 0, 0, 0, 0, 0,
    0, 0, 0, 0, 0, 0, 0, 0, 0, 0, 0, 0, 0, 0, 0, 0, 0, 0, 0, 0, 0, 0, 0, 0, 0, 0, 0, 0, 0, 0, 0, 0,
    0, 0, 0, 0, 0, 0, 0, 0, 0, 0, 0,
];

// 1 for a digit, 128 more for a suppressible one, 16,384 for a sign, 2,097,152 for a $, 268,435,456 for the
// first drifting symbol. A punched sign is a digit too.
pub(crate) const WEIGHT: [u32; 19] = [
    1, 129, 268435456, 16384, 16384, 16384, 2097152, 0, 0, 0, 0, 16384, 0, 16384, 0, 16385, // T
    16385, // I
    16385, // R
    16385, // no role, which the machine refuses
];
