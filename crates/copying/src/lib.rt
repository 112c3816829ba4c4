// Bytes copied into lent bytes. The call takes every input: where the part does not fit, nothing is written.
#![tactic(auto)]

ghost use Rattle.std.specs.Prelude.{◌≡◌};
ghost use Rattle.copying.specs.Copy.{copied};

// The part's bytes from byte `at` on; all else stays.
#[tactic(auto, using(crate::proofs::Copies::copied_out, crate::proofs::Copies::copied_part))]
pub fn put(part: &[u8], out: &mut [u8], at: usize)
    ensures memory { out.new ≡ copied part.now at out.old }
{
    if out.len() < part.len() || out.len() - part.len() < at {
        return;
    }
    out[at..at + part.len()].copy_from_slice(part);
}
