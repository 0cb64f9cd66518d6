ghost use Rattle.std.specs.Prelude.{◌≡◌, ◌≤◌, ◌<◌, ◌++◌, All};
ghost use Rattle.std.specs.List.{flat_map};
ghost use Rattle.abc_base.specs.Numbers.{number_bytes};
ghost use Rattle.abc_file_types.specs.Canonical.{counted_bytes};
ghost use Rattle.abc_file_types.specs.Bodies.{body_bytes, bodies_bytes, IsReadyBody};
ghost use Rattle.abc_instr.specs.Pieces.{ArePieces};
ghost use Rattle.abc_varint.specs.Puts.{Puts, PutsWhole};

use crate::handlers::put_handlers;
use abc_base::{NoMemory, Table};
use abc_file_types::{Abc, Body};
use abc_instr::{Pieces, put_pieces};
use abc_traits::TraitCodec;
use abc_varint::{put_count, put_counted, put_u30};
use std::alloc::Global;

/// Appends the method and the four sizes.
#[tactic(auto, using(abc_varint::proofs::Putting::stays, std::proofs::Common::append_assoc))]
fn put_sizes(body: &Body, out: &mut Vec<u8>) -> Result<(), NoMemory>
    ensures { Puts out.old.items out.new.items result (number_bytes (body.now).method
        ++ number_bytes (body.now).max_stack ++ number_bytes (body.now).local_count
        ++ number_bytes (body.now).init_scope ++ number_bytes (body.now).max_scope) }
{
    put_u30(body.method, out)?;
    put_u30(body.max_stack, out)?;
    put_u30(body.local_count, out)?;
    put_u30(body.init_scope, out)?;
    put_u30(body.max_scope, out)?;
    Ok(())
}

/// Appends a body, whose code was taken in pieces.
#[tactic(auto, unfolding(abc_file_types::specs::Bodies::body_bytes), using(abc_varint::proofs::Putting::stays, std::proofs::Common::append_assoc))]
fn put_fields(body: &Body, pieces: &Pieces, out: &mut Vec<u8>) -> Result<(), NoMemory>
    requires ready { IsReadyBody body.now }
    requires pieces { ArePieces (body.now).code pieces.now }
    ensures { Puts out.old.items out.new.items result (body_bytes body.now) }
{
    put_sizes(body, out)?;
    put_pieces(&body.code, pieces, out)?;
    put_handlers(&pieces.starts, &body.handlers, out)?;
    put_counted::<TraitCodec>(&body.traits, out)?;
    Ok(())
}

/// Appends the canonical bytes of a body. The memory for the pieces of its code serves one body after the other.
fn put_body(body: &Body, pieces: &mut Pieces, out: &mut Vec<u8>) -> Result<(), NoMemory>
    requires { IsReadyBody body.now }
    ensures { Puts out.old.items out.new.items result (body_bytes body.now) }
{
    pieces.take(&body.code)?;
    put_fields(body, pieces, out)
}

/// Appends the bodies, one after the other.
#[tactic(auto, using(abc_varint::proofs::Putting::stays))]
fn put_each_body(
    bodies: &Table<Body>,
    pieces: &mut Pieces,
    out: &mut Vec<u8>,
) -> Result<(), NoMemory>
    requires { All IsReadyBody bodies.now }
    ensures { Puts out.old.items out.new.items result (flat_map body_bytes bodies.now) }
{
    for body in bodies.as_slice() {
        put_body(body, pieces, out)?;
    }
    Ok(())
}

/// Appends how many bodies there are, and the bodies.
#[tactic(auto, unfolding(abc_file_types::specs::Bodies::bodies_bytes, abc_file_types::specs::Canonical::counted_bytes), using(abc_varint::proofs::Putting::stays, std::proofs::Common::append_assoc))]
fn append_bodies(alloc: Global, abc: &Abc, out: &mut Vec<u8>) -> Result<(), NoMemory>
    requires { All IsReadyBody (abc.now).bodies }
    ensures { Puts out.old.items out.new.items result (bodies_bytes abc.now) }
{
    put_count(abc.bodies.len(), out)?;
    let mut pieces = Pieces::new(alloc);
    put_each_body(&abc.bodies, &mut pieces, out)
}

/// Appends the canonical bytes of the method bodies: how many there are, and each with its code, its exceptions, whose
/// places are counted in the canonical code, and its traits. Where the bytes of any list spell the bodies, these do, and
/// none is shorter. Where memory runs out, the bytes stay as they were.
pub fn put_bodies(alloc: Global, abc: &Abc, out: &mut Vec<u8>) -> Result<(), NoMemory>
    // Some bytes spell each body's code, and its exceptions name places in it.
    requires { All IsReadyBody (abc.now).bodies }
    ensures { PutsWhole out.old.items out.new.items result (bodies_bytes abc.now) }
{
    let len = out.len();
    let done = append_bodies(alloc, abc, out);
    if done.is_err() {
        out.truncate(len);
    }
    done
}
