ghost use Rattle.std.specs.Prelude.{◌≡◌, ◌≤◌, ◌<◌, ◌^◌, [], All, None, Some, Err, false, IfOk, OnErr, OnOk, length, replicate};
ghost use Rattle.abc_bodies.specs.Places.{ArePlaces, KeepPlaces};
ghost use Rattle.abc_bodies.specs.Reading.{halves, keeping, with_places};
ghost use Rattle.abc_file_types.specs.Lists.{chain};
ghost use Rattle.abc_file_types.specs.Part.{image};
ghost use Rattle.abc_file_types.specs.Bodies.{bodies, body, body_list, methods_of, IsReadyBody};
ghost use Rattle.abc_varint.specs.Answers.{AnswersPart};
ghost use Rattle.abc_varint.specs.Reads.{Reads, ReadsPart};

use crate::body::read_body;
use crate::places::{Keeping, Places};
use abc_base::{NoMemory, Source, Table};
use abc_file_types::{Abc, Body, Sizes, sizes_of};
use abc_instr::Reading;
use abc_varint::{ReadError, Window, read_u30};
use std::alloc::Global;

/// So many flags, all down.
pub fn flags_down(alloc: Global, count: u32) -> Result<Table<bool>, NoMemory>
    ensures { IfOk result (λ flags. flags ≡ replicate count false) }
{
    let mut flags = Table::new(alloc);
    for _ in 0..count {
        flags.push(false)?;
    }
    Ok(flags)
}

/// So many bodies, each of another method, and what is kept of their places.
fn read_each_body<S: Source, K: Keeping>(
    alloc: Global,
    w: &mut Window,
    source: &mut S,
    sizes: &Sizes,
    count: u32,
) -> Result<(Table<Body>, K), ReadError>
    requires fresh { w.old.kept ≡ None }
    ensures value { ReadsPart S.left S.faults
        (image (halves K.of_places) (chain count (λ before. body sizes.now (methods_of before)) [])) w.old
        source.old w.new source.new result }
    ensures places { IfOk result (λ x. KeepPlaces K.of_places x.0 x.1) }
    ensures ready { IfOk result (λ x. All IsReadyBody x.0) }
{
    let mut has_body = flags_down(alloc, sizes.methods)?;
    let mut bodies = Table::new(alloc);
    let mut places = K::none(alloc);
    let mut reading = Reading::new(alloc);
    for _ in 0..count {
        let body = read_body(alloc, w, source, sizes, &has_body, &mut reading)?;
        has_body.set(body.method as usize, true);
        bodies.push(body)?;
        places.keep(reading.starts.as_slice())?;
    }
    Ok((bodies, places))
}

/// A count and that many bodies, over tables of these sizes.
#[tactic(auto, unfolding(abc_file_types::specs::Bodies::body_list))]
fn read_all<S: Source, K: Keeping>(
    alloc: Global,
    w: &mut Window,
    source: &mut S,
    sizes: &Sizes,
) -> Result<(Table<Body>, K), ReadError>
    ensures value { ReadsPart S.left S.faults (image (halves K.of_places) (body_list sizes.now)) w.old
        source.old w.new source.new result }
    ensures places { IfOk result (λ x. KeepPlaces K.of_places x.0 x.1) }
    ensures ready { IfOk result (λ x. All IsReadyBody x.0) }
{
    let count = read_u30(w, source)?;
    read_each_body(alloc, w, source, sizes, count)
}

/// Reads method bodies as `read_bodies` does, and gives what is kept of where their instructions began.
pub fn read_bodies_keeping<S: Source, K: Keeping>(
    alloc: Global,
    w: &mut Window,
    source: &mut S,
    abc: &mut Abc,
) -> Result<K, ReadError>
    ensures value { ReadsPart S.left S.faults (image (keeping K.of_places) (bodies abc.old)) w.old source.old
        w.new source.new (with_places result abc.new) }
    ensures places { IfOk result (KeepPlaces K.of_places (abc.new).bodies) }
    ensures ready { OnOk result (All IsReadyBody (abc.new).bodies) }
    ensures err { OnErr result (abc.new ≡ abc.old) }
    ensures answers { AnswersPart (image (keeping K.of_places) (bodies abc.old)) w.old (S.left source.old)
        w.new (S.left source.new) (with_places result abc.new) }
{
    let _ = w.place();
    let sizes = sizes_of(abc);
    match read_all(alloc, w, source, &sizes) {
        Ok((found, places)) => {
            abc.bodies = found;
            Ok(places)
        }
        Err(e) => Err(e),
    }
}

/// Reads method bodies beside the other tables of an Abc, whose bodies they replace, and gives where their instructions
/// began. After any Err the Abc is as it was.
///
/// The bytes are refused at a number or a byte as by `read_u30` and `read_u8`, code as by `read_code`, and traits as by
/// `read_definitions`. A body's method is refused by `Index` where there is no such method, and then by `SecondBody` where
/// it has a body already; a place of an exception by `HandlerRange` where no instruction begins or the code ends there; its
/// type and its name by `Index` where there is no such multiname: each at its first byte. A body's targets are tested
/// once its code is read, before the count of its exceptions. The window does not keep `SecondBody`. `ReadFault` comes
/// only where the source's count of faults rose, and `NoMemory` where memory ran out. No memory is reserved for bodies
/// that have not come. What was read can be put.
pub fn read_bodies<S: Source>(
    alloc: Global,
    w: &mut Window,
    source: &mut S,
    abc: &mut Abc,
) -> Result<Places, ReadError>
    ensures value { ReadsPart S.left S.faults (bodies abc.old) w.old source.old w.new source.new
        (with_places result abc.new) }
    ensures places { IfOk result (ArePlaces (abc.new).bodies) }
    ensures ready { OnOk result (All IsReadyBody (abc.new).bodies) }
    ensures err { OnErr result (abc.new ≡ abc.old) }
    ensures answers { AnswersPart (bodies abc.old) w.old (S.left source.old) w.new (S.left source.new)
        (with_places result abc.new) }
{
    let _place = w.place();
    read_bodies_keeping::<S, Places>(alloc, w, source, abc)
}
