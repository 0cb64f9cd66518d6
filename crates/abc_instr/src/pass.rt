ghost use Rattle.std.specs.Prelude.{◌≡◌, ◌≤◌, ◌<◌, ◌^◌, ◌+◌, None, OnOk, length};
ghost use Rattle.abc_file_types.specs.Code.{code as code_part};
ghost use Rattle.abc_file_types.specs.CodeBytes.{code_bytes};
ghost use Rattle.abc_varint.specs.Passes.{Passes, PassesPart};
ghost use Rattle.abc_varint.specs.Reads.{Reads, ReadsPart, stored_value};
ghost use Rattle.abc_instr.specs.Marks.{mark_at, moved_in};

use crate::read::read_length;
use crate::resolve::Missed;
use crate::scan::{Scan, put_scan, scan_code};
use abc_base::Source;
use abc_file_types::Reason;
use abc_varint::{ReadError, Window};
use std::alloc::Global;

/// Reads code, as `read_code` does, and appends its canonical bytes. What is left of it are the marks, which say where each
/// instruction starts in the canonical bytes; the memory of a scan is used again. After an Err `out` may hold
/// any bytes.
pub fn pass_code<S: Source>(
    alloc: Global,
    w: &mut Window,
    source: &mut S,
    scan: &mut Scan,
    out: &mut Vec<u8>,
) -> Result<(), ReadError>
    ensures { PassesPart S.left S.faults code_part (λ c. code_bytes c.instrs) moved_in w.old source.old w.new
        source.new out.old.items out.new.items (stored_value result (mark_at (scan.new).marks)) }
{
    let length = read_length(w, source)?;
    let first = w.place();
    scan_code(alloc, w, source, length, scan)?;
    match put_scan(scan, out) {
        Ok(()) => Ok(()),
        Err(Missed::Target(at)) => Err(ReadError::Refused {
            place: first + at,
            reason: Reason::Target,
        }),
        Err(Missed::NoMemory) => Err(ReadError::NoMemory),
    }
}
