ghost use Rattle.std.specs.Prelude.{All};
ghost use Rattle.abc_file_types.specs.Bodies.{IsReadyBody};
ghost use Rattle.abc_file_types.specs.Files.{file_bytes};
ghost use Rattle.abc_varint.specs.Puts.{Puts, PutsWhole};

use abc_base::NoMemory;
use abc_bodies::put_bodies;
use abc_file_types::Abc;
use abc_pools::put_pools;
use abc_traits::put_definitions;
use abc_varint::put_u16;
use std::alloc::Global;

/// Appends the canonical bytes of a file.
#[tactic(auto, unfolding(abc_file_types::specs::Files::file_bytes), using(abc_varint::proofs::Putting::stays, std::proofs::Common::append_assoc))]
fn append_file(alloc: Global, abc: &Abc, out: &mut Vec<u8>) -> Result<(), NoMemory>
    requires { All IsReadyBody (abc.now).bodies }
    ensures { Puts out.old.items out.new.items result (file_bytes abc.now) }
{
    put_u16(16, out)?;
    put_u16(46, out)?;
    put_pools(abc, out)?;
    put_definitions(abc, out)?;
    put_bodies(alloc, abc, out)?;
    Ok(())
}

/// Appends the canonical bytes of a file, which spell it. Where memory runs out `out` is as it was.
pub fn write(alloc: Global, abc: &Abc, out: &mut Vec<u8>) -> Result<(), NoMemory>
    // Some bytes spell the bodies, as they do in every file that was read.
    requires { All IsReadyBody (abc.now).bodies }
    ensures { PutsWhole out.old.items out.new.items result (file_bytes abc.now) }
{
    let len = out.len();
    let done = append_file(alloc, abc, out);
    if done.is_err() {
        out.truncate(len);
    }
    done
}
