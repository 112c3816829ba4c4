// Rows as runs of bytes: signed 64-bit numbers in two's complement, eight little-endian bytes each (RULES
// 7.3). No function that is called from outside has a `requires`: where eight bytes do not fit, nothing is
// written and 0 is read.
#![tactic(auto)]

ghost use Rattle.std.specs.Prelude.{◌≡◌, ◌+◌, ◌≤◌, length};
ghost use Rattle.wire.specs.Run.{put_at, get_at, put_row, get_row};

// The eight bytes of m from byte `at` on; all else stays.
#[tactic(auto, using(crate::proofs::Run::put_out))]
pub fn put(run: &mut [u8], at: usize, m: i64)
    ensures memory { run.new ≡ put_at run.old at m }
{
    if run.len() < 8 || run.len() - 8 < at {
        return;
    }
    store(run, at, m);
}

// The same where it is known that they fit: a row asks once, and a compiler then copies it whole.
#[tactic(auto, using(crate::proofs::Run::put_part))]
fn store(run: &mut [u8], at: usize, m: i64)
    requires { at + 8 ≤ length run.old }
    ensures memory { run.new ≡ put_at run.old at m }
{
    run[at..at + 8].copy_from_slice(&m.to_le_bytes());
}

// The bytes of a row in the first bytes of the run; nothing where they do not fit. By index, since the
// library says nothing of what a run ends as whose chunks are lent.
#[tactic(auto, using(crate::proofs::Rows::put_row_out, crate::proofs::Rows::put_row_none))]
pub fn put_row(run: &mut [u8], row: &[i64])
    ensures memory { run.new ≡ put_row run.old row.now }
{
    if run.len() / 8 < row.len() {
        return;
    }
    for (k, &m) in row.iter().enumerate() {
        store(run, 8 * k, m);
    }
}

// The row's places from the first bytes of the run; nothing where there are too few.
#[tactic(auto, using(crate::proofs::Rows::get_row_out))]
pub fn get_row(run: &[u8], row: &mut [i64])
    ensures memory { row.new ≡ get_row run.now row.old }
{
    if run.len() / 8 < row.len() {
        return;
    }
    for (k, place) in row.iter_mut().enumerate() {
        *place = get(run, 8 * k);
    }
}

// The number in the eight bytes from byte `at` on.
#[tactic(auto, using(crate::proofs::Run::get_out))]
pub fn get(run: &[u8], at: usize) -> i64
    ensures { result ≡ get_at run.now at }
{
    if run.len() < 8 || run.len() - 8 < at {
        return 0;
    }
    i64::from_le_bytes(run[at..at + 8].try_into().unwrap())
}
