//! Code alone, and multinames.
ghost use Rattle.std.specs.Prelude.{IfOk};
ghost use Rattle.abc_file_types.specs.Ready.{IsReady};

use abc_base::{SteadySource, Table};
use abc_file_types::{BoxedList, Code, Instr, Multiname};
use abc_instr::{offset_at, put_code, read_code};
use abc_pools::{put_multiname, read_multiname};
use abc_varint::Window;
use std::alloc::Global;
use std::test::*;

/// `label`, `getlocal 0`, `pop`, and a `jump` to the first of them. The number takes two bytes.
const LOOP: &[u8] = b"\x09\x09\x62\x80\x00\x29\x10\xf7\xff\xff";

/// Its canonical bytes.
const CANONICAL: &[u8] = b"\x08\x09\x62\x00\x29\x10\xf8\xff\xff";

fn code_of(alloc: Global, bytes: &[u8]) -> Result<Code, Fail>
    ensures { IfOk result (λ c. IsReady c.instrs) }
{
    let mut w = Window::new(alloc)?;
    let mut source = SteadySource::new(alloc, bytes, 1)?;
    Ok(read_code(alloc, &mut w, &mut source)?)
}

/// Whether the instructions are `label`, `getlocal 0`, `pop` and `jump` to the first.
fn is_loop(code: &Table<Instr>) -> bool {
    code.len() == 4
        && matches!(code.get(0), Instr::Plain(0x09))
        && matches!(code.get(1), Instr::One(0x62, 0))
        && matches!(code.get(2), Instr::Plain(0x29))
        && matches!(code.get(3), Instr::Branch(0x10, 0))
}

/// Where an instruction starts in the canonical code, or the last ends, if there are so many.
fn start_at(code: &Table<Instr>, index: u32) -> Option<u32>
    requires { IsReady code.now }
{
    if index as usize > code.len() {
        return None;
    }
    Some(offset_at(code, index))
}

/// The first of these instructions that starts elsewhere.
fn first_elsewhere(code: &Table<Instr>, starts: &[(u32, u32)]) -> Option<u32>
    requires { IsReady code.now }
{
    for (index, start) in starts {
        if start_at(code, *index) != Some(*start) {
            return Some(*index);
        }
    }
    None
}

#[tactic(auto, using(crate::proofs::Spelled::ready_code))]
fn bytes_of(alloc: Global, code: &Table<Instr>) -> Result<Vec<u8>, Fail>
    requires { IsReady code.now }
{
    let mut out = Vec::new(alloc);
    put_code(alloc, code, &mut out)?;
    Ok(out)
}

#[test]
fn code_is_read_and_put(rt: HostRuntime) -> Result<(), Fail> {
    let alloc = rt.alloc();
    let code = code_of(alloc, LOOP)?;
    assert!(rt; is_loop(&code.instrs));
    assert_eq!(rt; code.offsets.as_slice(), [0, 1, 4, 5, 9].as_slice());
    let elsewhere = first_elsewhere(&code.instrs, &[(0, 0), (1, 1), (2, 3), (3, 4), (4, 8)]);
    assert_eq!(rt; elsewhere, None);
    let bytes = bytes_of(alloc, &code.instrs)?;
    assert_eq!(rt; bytes.as_slice(), CANONICAL);
    Ok(())
}
