ghost use Rattle.std.specs.Prelude.{◌≡◌, ◌≤◌, ◌+◌, ◌^◌, Ok, Err, IfOk, IfErr, OnOk, None, All, nat_eq, if◌then◌else◌};
ghost use Rattle.abc_base.specs.Faults.{Rose};
ghost use Rattle.abc_base.specs.Taking.{TakesAtMost};
ghost use Rattle.abc_file_types.specs.Numbers.{u16 as two_bytes};
ghost use Rattle.abc_file_types.specs.Part.{with_test, image};
ghost use Rattle.abc_file.specs.Reading.{AnswersFile, AnswersKept, IsErrorOf, IsNew, IsTrailing, IsUsedUp, OfInput};
ghost use Rattle.abc_bodies.specs.Places.{ArePlaces, KeepPlaces};
ghost use Rattle.abc_bodies.specs.Reading.{keeping};
ghost use Rattle.abc_file_types.specs.Bodies.{IsReadyBody};
ghost use Rattle.abc_file_types.specs.Files.{Fits, IsFile, file_read, version};
ghost use Rattle.abc_varint.specs.Reads.{IsInput, ReadsPart, known_input};
ghost use Rattle.abc_varint.specs.declared.error.ReadError.{ReadError};

use crate::rest::read_nothing_more;
use abc_base::Source;
use abc_bodies::{Keeping, NoPlaces, Places, read_bodies_keeping};
use abc_file_types::{Abc, Reason};
use abc_pools::read_pools;
use abc_traits::read_definitions;
use abc_varint::{ReadError, Window, read_u16};
use std::alloc::Global;

/// One number of the version, which has to be this one.
fn read_version_number<S: Source>(
    w: &mut Window,
    source: &mut S,
    wanted: u16,
) -> Result<u16, ReadError>
    ensures { ReadsPart S.left S.faults (with_test (λ n. nat_eq n wanted) Reason.Version two_bytes) w.old
        source.old w.new source.new result }
{
    let place = w.place();
    let number = read_u16(w, source)?;
    if number != wanted {
        return Err(ReadError::Refused {
            place,
            reason: Reason::Version,
        });
    }
    Ok(number)
}

/// The version: minor 16, major 46. It is refused by `Version` at the number that differs.
#[tactic(auto, unfolding(abc_file_types::specs::Files::version))]
pub fn read_version<S: Source>(w: &mut Window, source: &mut S) -> Result<(u16, u16), ReadError>
    ensures { ReadsPart S.left S.faults version w.old source.old w.new source.new result }
{
    let minor = read_version_number(w, source, 16)?;
    let major = read_version_number(w, source, 46)?;
    Ok((minor, major))
}

/// The file, with what is kept of the places of its instructions, and not what follows it.
#[tactic(auto, unfolding(abc_file_types::specs::Files::file_read))]
fn read_file<S: Source, K: Keeping>(
    alloc: Global,
    w: &mut Window,
    source: &mut S,
) -> Result<(Abc, K), ReadError>
    ensures value { ReadsPart S.left S.faults (image (keeping K.of_places) file_read) w.old source.old w.new
        source.new result }
    ensures places { IfOk result (λ x. KeepPlaces K.of_places (x.0).bodies x.1) }
    ensures ready { IfOk result (λ x. All IsReadyBody (x.0).bodies) }
{
    read_version(w, source)?;
    let mut abc = read_pools(alloc, w, source)?;
    read_definitions(alloc, w, source, &mut abc)?;
    let places = read_bodies_keeping(alloc, w, source, &mut abc)?;
    Ok((abc, places))
}

/// The same, and nothing after it.
#[tactic(auto)]
fn read_to_end<S: Source, K: Keeping>(
    alloc: Global,
    w: &mut Window,
    source: &mut S,
) -> Result<(Abc, K), ReadError>
    requires { IsNew w.old }
    ensures answers { OfInput (S.left source.old) (λ b. AnswersKept K.of_places b result) }
    ensures fits { IfOk result (λ x. Fits x.0) }
    ensures places { IfOk result (λ x. KeepPlaces K.of_places (x.0).bodies x.1) }
    ensures ready { IfOk result (λ x. All IsReadyBody (x.0).bodies) }
    ensures input { IsInput w.old (S.left source.old) (known_input w.new (S.left source.new)) }
    ensures end { OnOk result (IsUsedUp (S.left source.old) (S.left source.new)) }
    ensures later { S.faults source.old ≤ S.faults source.new }
    ensures cause { result ≡ Err ReadError.ReadFault → Rose (S.faults source.old) (S.faults source.new) }
{
    let file = read_file(alloc, w, source)?;
    read_nothing_more(w, source)?;
    Ok(file)
}

/// The same from a new window.
fn read_keeping<S: Source, K: Keeping>(alloc: Global, source: &mut S) -> Result<(Abc, K), ReadError>
    ensures answers { OfInput (S.left source.old) (λ b. AnswersKept K.of_places b result) }
    ensures fits { IfOk result (λ x. Fits x.0) }
    ensures places { IfOk result (λ x. KeepPlaces K.of_places (x.0).bodies x.1) }
    ensures ready { IfOk result (λ x. All IsReadyBody (x.0).bodies) }
    ensures taken { TakesAtMost (S.left source.old) (S.left source.new) (2 ^ 24 + 1) }
    ensures end { OnOk result (IsUsedUp (S.left source.old) (S.left source.new)) }
    ensures later { S.faults source.old ≤ S.faults source.new }
    ensures cause { result ≡ Err ReadError.ReadFault → Rose (S.faults source.old) (S.faults source.new) }
{
    let mut w = Window::new(alloc)?;
    let file = read_to_end(alloc, &mut w, source);
    w.stays_small();
    file
}

/// Reads a file to the input's end, and gives where the instructions of its bodies began. It is refused at its first
/// fault, by the place of that fault and its reason; a byte that follows a complete file is refused by `Trailing`.
/// `ReadFault` comes only where the source's count of faults rose. At most 2^24 + 1 bytes are taken, whatever is
/// answered. Whether the source tells its bytes or not, some bytes spell what was read, and the places are those of its
/// instructions.
pub fn read<S: Source>(alloc: Global, source: &mut S) -> Result<(Abc, Places), ReadError>
    ensures answers { OfInput (S.left source.old) (λ b. AnswersFile b result) }
    ensures fits { IfOk result (λ x. Fits x.0) }
    ensures places { IfOk result (λ x. ArePlaces (x.0).bodies x.1) }
    ensures ready { IfOk result (λ x. All IsReadyBody (x.0).bodies) }
    ensures taken { TakesAtMost (S.left source.old) (S.left source.new) (2 ^ 24 + 1) }
    ensures end { OnOk result (IsUsedUp (S.left source.old) (S.left source.new)) }
    ensures later { S.faults source.old ≤ S.faults source.new }
    ensures cause { result ≡ Err ReadError.ReadFault → Rose (S.faults source.old) (S.faults source.new) }
{
    read_keeping::<S, Places>(alloc, source)
}

/// Reads a file as `read` does, and keeps nothing of where instructions began.
pub fn read_alone<S: Source>(alloc: Global, source: &mut S) -> Result<Abc, ReadError>
    ensures file { IfOk result (λ v. OfInput (S.left source.old) (IsFile v)) }
    ensures fault { IfErr result (λ e. IsErrorOf (S.left source.old) e) }
    ensures fits { IfOk result Fits }
    ensures taken { TakesAtMost (S.left source.old) (S.left source.new) (2 ^ 24 + 1) }
    ensures end { OnOk result (IsUsedUp (S.left source.old) (S.left source.new)) }
    ensures later { S.faults source.old ≤ S.faults source.new }
    ensures cause { result ≡ Err ReadError.ReadFault → Rose (S.faults source.old) (S.faults source.new) }
{
    let (abc, _) = read_keeping::<S, NoPlaces>(alloc, source)?;
    Ok(abc)
}
