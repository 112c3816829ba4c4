// Bytes in and out, for the programs. A read or a write that fails is told in a line on standard error, the
// program's own words `failed` and the system's reason; one that a signal interrupts counts as failed. The
// closing of a pipe that the lines go to is no trouble, and is not told.
#![tactic(auto)]

mod saying; // saying.rt: what both programs say on standard error

ghost use Rattle.std.specs.Prelude.{◌≤◌, ◌<◌, ◌≡◌, true, length, take, IfErr, IfOk, OnOk};
ghost use Rattle.std.specs.Io.KnownBytes.{Appends, Consumes, IsAtEnd};

pub use saying::Program;
use std::io;
use std::io::{ErrorKind, Read, Write};

// A read that failed, and how many bytes had been read before.
#[derive(Drop)]
struct Failed {
    count: usize,
    error: io::Error,
}

// Reads standard input into the first bytes of `input`, until that is full or the input ends, and answers how
// many these are. A read that fails is told, and what is answered is how many bytes were read before it.
pub fn read(rt: &HostRuntime, input: &mut [u8], failed: &[u8]) -> Result<usize, usize>
    ensures size { length input.new ≡ length input.old }
    ensures count { IfOk result (λ n. n ≤ length input.new) }
    ensures before { IfErr result (λ n. n ≤ length input.new) }
{
    match read_all(&mut rt.stdin(), input) {
        Ok(count) => Ok(count),
        Err(Failed { count, error }) => {
            tell(rt, failed, error);
            Err(count)
        }
    }
}

// std's `read_exact` refuses an input that ends early, and `read_to_end` needs a heap.
fn read_all<R: Read>(from: &mut R, input: &mut [u8]) -> Result<usize, Failed>
    ensures size { length input.new ≡ length input.old }
    ensures count { IfOk result (λ n. n ≤ length input.new) }
    ensures before { IfErr result (λ failed. failed.count ≤ length input.new) }
    ensures bytes { IfOk result (λ n. Consumes (R.remaining from.old) (R.remaining from.new) (take n input.new)) }
    ensures end { IfOk result (λ n. n < length input.new → IsAtEnd (R.remaining from.new)) }
{
    let mut count = 0;
    while count < input.len() {
        match from.read(&mut input[count..]) {
            Ok(0) => return Ok(count),
            Ok(more) => count += more,
            Err(error) => return Err(Failed { count, error }),
        }
    }
    Ok(count)
}

// Writes to standard output where all before has been written, and answers whether all of this has been too.
pub fn write(rt: &HostRuntime, whole: bool, text: &[u8], failed: &[u8]) -> bool
    ensures { result ≡ true → whole ≡ true }
{
    if !whole {
        return false;
    }
    match write_all(&mut rt.stdout(), text) {
        Ok(()) => true,
        Err(error) => {
            if error.kind() != ErrorKind::BrokenPipe {
                tell(rt, failed, error);
            }
            false
        }
    }
}

// A write that takes nothing gives no reason of its own. std's `write_all` goes on behind a signal.
fn write_all<W: Write>(to: &mut W, text: &[u8]) -> io::Result<()>
    ensures { OnOk result (Appends (W.contents to.old) (W.contents to.new) text.now) }
{
    let mut rest = text;
    while !rest.is_empty() {
        match to.write(rest)? {
            0 => return Err(io::Error::from_raw_os_error(0)),
            done => rest = &rest[done..],
        }
    }
    Ok(())
}

// Says this on standard error, as far as that takes it.
pub fn say(rt: &HostRuntime, text: &[u8]) {
    let _ = write_all(&mut rt.stderr(), text);
}

// What failed, in the program's words, and the system's reason.
fn tell(rt: &HostRuntime, failed: &[u8], error: io::Error) {
    let mut text = [0u8; 256];
    let mut room = &mut text[..];
    let _ = write!(room, "{error}");
    say(rt, failed);
    say(rt, b": ");
    say(rt, reason(&text));
    say(rt, b"\n");
}

// The reason without the error's number behind it, or all that stands before the zeros. It goes by places,
// since at each the bytes from there on are looked at.
fn reason(text: &[u8]) -> &[u8] {
    for end in 0..text.len() {
        if text[end] == 0 || text[end..].starts_with(b" (os error ") {
            return &text[..end];
        }
    }
    text
}
