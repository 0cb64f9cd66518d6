ghost use Rattle.std.specs.Prelude.{◌≡◌};
ghost use Rattle.abc_base.specs.Faults.{HasCause};
ghost use Rattle.abc_base.specs.Sinks.{WritesAll};
ghost use Rattle.abc_meaning.specs.Lines.{end_line, thrown_name as name_of_thrown};
ghost use Rattle.abc_meaning.specs.Throwing.{Uncaught};

use abc_base::{Failed, Sink};
use abc_file_types::Abc;
use abc_link::Linked;
use abc_link_names::{class_name, qname_at, text_at};
use abc_log::write_uncaught_end;
use abc_meaning::Thrown;

/// What was thrown, by the name of its class or of what else it is.
pub fn thrown_name<'a>(abc: &'a Abc, thrown: &'a Thrown) -> &'a [u8]
    ensures { result.now ≡ name_of_thrown abc.now thrown.now }
{
    match thrown {
        Thrown::FileClass(class) => text_at(abc, qname_at(abc, class_name(abc, *class)).string),
        Thrown::HostClass(class) => class.name(),
        Thrown::Undefined => b"undefined",
        Thrown::Null => b"null",
        Thrown::Global => b"global",
        Thrown::Activation => b"activation",
        Thrown::Catch => b"catch",
    }
}

/// Writes the line of what nothing caught. After `Failed` the front of that was written, and it comes only where the count of faults
/// rose or stood at its last value.
pub fn write_uncaught<K: Sink>(linked: &Linked, log: &mut K, thrown: &Thrown) -> Result<(), Failed>
    ensures bytes { WritesAll (K.written log.old) (K.written log.new) result
        (end_line linked.now.file (Uncaught thrown.now)) }
    ensures cause { HasCause (K.faults log.old) (K.faults log.new) result }
{
    write_uncaught_end(log, thrown_name(linked.abc(), thrown))
}
