ghost use Rattle.std.specs.Prelude.{◌≡◌, ◌++◌, ◌∷◌, [], IfOk, OnOk};

use abc_base::NoMemory;
use std::alloc::Global;

/// Appends bytes.
fn put(out: &mut Vec<u8>, bytes: &[u8]) -> Result<(), NoMemory>
    ensures { OnOk result (out.new.items ≡ out.old.items ++ bytes.now) }
{
    out.extend_from_slice(bytes)?;
    Ok(())
}

/// A line of a word, its blank, and a number, which is given by its digits.
#[tactic(auto, using(crate::proofs::VerifiedLine::pieces_are))]
pub fn numbered_line(alloc: Global, word: &[u8], digits: &[u8]) -> Result<Vec<u8>, NoMemory>
    ensures { IfOk result (λ bytes. bytes.items ≡ word.now ++ digits.now ++ 10 ∷ []) }
{
    let mut bytes = Vec::new(alloc);
    put(&mut bytes, word)?;
    put(&mut bytes, digits)?;
    put(&mut bytes, b"\n")?;
    Ok(bytes)
}
