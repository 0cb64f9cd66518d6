//! Where the instructions of a made file start in its canonical bytes.
ghost use Rattle.std.specs.Prelude.{◌≡◌, ◌<◌, ◌^◌, ◌++◌, ◌∷◌, [], All, IfOk, OnOk};
ghost use Rattle.abc_cli_answers.specs.Placed.{starts_in};
ghost use Rattle.abc_file_types.specs.Bodies.{IsReadyBody};
ghost use Rattle.abc_file_types.specs.CodeBytes.{canonical_starts, code_len as total, instr_len as len_of};

use abc_base::{NoMemory, Table};
use abc_bodies::{Keeping, Places};
use abc_file_types::{Body, Instr, instr_len};
use std::alloc::Global;

/// How many bytes an instruction has.
fn short_len(instr: &Instr) -> u32
    requires { len_of instr.now < 2 ^ 23 }
    ensures { result ≡ len_of instr.now }
{
    instr_len(instr) as u32
}

/// Puts where the instructions of some code start in its canonical bytes, and where the last one ends, in place of what the list has.
fn put_starts(code: &[Instr], starts: &mut Vec<u32>) -> Result<(), NoMemory>
    requires { total code.now < 2 ^ 23 }
    ensures { OnOk result (starts.new.items ≡ canonical_starts code.now) }
{
    starts.clear();
    let mut here = 0;
    for instr in code {
        starts.push(here)?;
        here += short_len(instr);
    }
    starts.push(here)?;
    Ok(())
}

/// Keeps where the instructions of a body start, after those of others.
fn keep_starts(body: &Body, starts: &mut Vec<u32>, places: &mut Places) -> Result<(), NoMemory>
    requires { IsReadyBody body.now }
    ensures { OnOk result (places.new ≡ places.old ++ canonical_starts (body.now).code ∷ []) }
{
    put_starts(body.code.as_slice(), starts)?;
    places.keep(starts.as_slice())?;
    Ok(())
}

/// Where the instructions of bodies start in their canonical bytes.
pub(crate) fn places_of(alloc: Global, bodies: &Table<Body>) -> Result<Places, NoMemory>
    requires { All IsReadyBody bodies.now }
    ensures { IfOk result (λ places. places ≡ starts_in bodies.now) }
{
    let mut places = Places::none(alloc);
    let mut starts = Vec::new(alloc);
    for body in bodies.as_slice() {
        keep_starts(body, &mut starts, &mut places)?;
    }
    Ok(places)
}
