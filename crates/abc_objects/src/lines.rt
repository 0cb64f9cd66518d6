ghost use Rattle.std.specs.Prelude.{◌≡◌, ◌++◌, ◌∷◌, []};
ghost use Rattle.std.specs.List.{flat_map};
ghost use Rattle.abc_base.specs.Faults.{HasCause};
ghost use Rattle.abc_base.specs.Sinks.{WritesAll};
ghost use Rattle.abc_objects.specs.Lines.{AreThere, AreTextsThere, behind, bytes_of_value, texts_line};

use crate::arena::Arena;
use abc_base::{Failed, Sink, write_all};
use abc_heap_values::Value;
use abc_link::Linked;

/// The bytes of a text, and none of another value.
fn bytes<'a>(linked: &'a Linked, arena: &'a Arena, v: Value) -> &'a [u8]
    requires { AreTextsThere linked.now.file.strings arena.now v }
    ensures { result.now ≡ bytes_of_value linked.now.file.strings arena.now v }
{
    match v {
        Value::Text(text) => arena.text_bytes(linked, text),
        Value::Undefined => &[],
        Value::Null => &[],
        Value::Num(_) => &[],
        Value::Bool(_) => &[],
        Value::Space(_) => &[],
        Value::Obj(_) => &[],
    }
}

/// Writes a text behind a space.
#[tactic(auto, using(abc_base::proofs::Writing::writing))]
fn write_behind<K: Sink>(out: &mut K, text: &[u8]) -> Result<(), Failed>
    ensures bytes { WritesAll (K.written out.old) (K.written out.new) result (32 ∷ text.now) }
    ensures cause { HasCause (K.faults out.old) (K.faults out.new) result }
{
    write_all(out, b" ")?;
    write_all(out, text)
}

/// Writes texts, each behind a space.
fn write_rest<K: Sink>(
    out: &mut K,
    linked: &Linked,
    arena: &Arena,
    texts: &[Value],
) -> Result<(), Failed>
    requires { AreThere linked.now.file.strings arena.now texts.now }
    ensures bytes { WritesAll (K.written out.old) (K.written out.new) result
        (flat_map (behind linked.now.file.strings arena.now) texts.now) }
    ensures cause { HasCause (K.faults out.old) (K.faults out.new) result }
{
    for text in texts {
        write_behind(out, bytes(linked, arena, *text))?;
    }
    Ok(())
}

/// Writes a text, others behind spaces, and a line feed.
#[tactic(auto, using(abc_base::proofs::Writing::writing))]
fn write_texts<K: Sink>(
    out: &mut K,
    linked: &Linked,
    arena: &Arena,
    first: Value,
    rest: &[Value],
) -> Result<(), Failed>
    requires first { AreTextsThere linked.now.file.strings arena.now first }
    requires rest { AreThere linked.now.file.strings arena.now rest.now }
    ensures bytes { WritesAll (K.written out.old) (K.written out.new) result
        (bytes_of_value linked.now.file.strings arena.now first
        ++ flat_map (behind linked.now.file.strings arena.now) rest.now ++ 10 ∷ []) }
    ensures cause { HasCause (K.faults out.old) (K.faults out.new) result }
{
    write_all(out, bytes(linked, arena, first))?;
    write_rest(out, linked, arena, rest)?;
    write_all(out, b"\n")
}

/// Writes texts, each but the first behind a space, and a line feed. Where writing fails, the front of that was written; it fails
/// only where the sink's count of faults rose or stood at its last value.
pub fn write_line<K: Sink>(
    out: &mut K,
    linked: &Linked,
    arena: &Arena,
    texts: &[Value],
) -> Result<(), Failed>
    requires { AreThere linked.now.file.strings arena.now texts.now }
    ensures bytes { WritesAll (K.written out.old) (K.written out.new) result
        (texts_line linked.now.file.strings arena.now texts.now) }
    ensures cause { HasCause (K.faults out.old) (K.faults out.new) result }
{
    match texts.split_first() {
        Some((first, rest)) => write_texts(out, linked, arena, *first, rest),
        None => write_all(out, b"\n"),
    }
}
