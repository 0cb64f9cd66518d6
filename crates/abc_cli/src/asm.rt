ghost use Rattle.std.specs.Prelude.{◌≤◌, ◌+◌, ◌^◌, IfErr, IfOk, length};
ghost use Rattle.abc_base.specs.Taking.{TakesAtMost};
ghost use Rattle.abc_cli_answers.specs.End.{stream};
ghost use Rattle.abc_cli_answers.specs.Answers.{bytes_answer};
ghost use Rattle.abc_cli.specs.Outcome.{Asm};
ghost use Rattle.abc_cli_answers.specs.Stops.{GivesAllBytes, Stops, StopsAt};

use abc_asm::assemble;
use abc_base::{Source, read_input};
use abc_cli_answers::Stop;
use abc_disasm::texts_have_ready_bodies;
use abc_file::write;
use std::alloc::Global;
use std::mem::forget;

/// The canonical bytes of the file that a text is one of.
fn assembled(alloc: Global, text: &[u8]) -> Result<Vec<u8>, Stop>
    requires { length text.now ≤ 2 ^ 28 }
    ensures gives { IfOk result (λ bytes. Asm text.now (bytes_answer bytes.items)) }
    ensures stops { IfErr result (λ stop. StopsAt (Asm text.now) stop) }
{
    // A law, which says that the file can be written.
    texts_have_ready_bodies();
    let abc = assemble(alloc, text)?;
    let mut bytes = Vec::new(alloc);
    write(alloc, &abc, &mut bytes)?;
    // The program ends soon, and the lists of a file are many: to free each of them would only take time.
    forget(abc);
    Ok(bytes)
}

/// What the command `asm` gives: the canonical bytes of the text's file. At most 2^28 + 1 bytes are read.
pub fn asm<S: Source>(alloc: Global, source: &mut S) -> Result<Vec<u8>, Stop>
    ensures gives { IfOk result
        (λ bytes. GivesAllBytes Asm (stream S.left S.faults source.old source.new) bytes.items) }
    ensures stops { IfErr result (λ stop. Stops Asm (stream S.left S.faults source.old source.new) stop) }
    ensures taken { TakesAtMost (S.left source.old) (S.left source.new) (2 ^ 28 + 1) }
{
    let text = read_input(alloc, source, 1 << 28)?;
    let bytes = assembled(alloc, text.as_slice())?;
    Ok(bytes)
}
