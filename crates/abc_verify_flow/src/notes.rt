ghost use Rattle.std.specs.Prelude.{◌≡◌};
ghost use Rattle.abc_link_names.specs.Linked.{IsLinkedFile};
ghost use Rattle.abc_verify_flow.specs.Walking.{NotesWritten, NotedAt};
ghost use Rattle.abc_verify_flow.specs.declared.step.Written.TheVariants as writes;

use crate::flow::Flow;
use crate::step::Written;
use abc_base::Table;
use abc_link_names::Kind;

/// Joins a local to what was seen of it.
#[tactic(auto, using(crate::proofs::Seen::noted_here, crate::proofs::Seen::noted_past, crate::proofs::Seen::noted_none))]
fn note_one<F: Flow>(flow: &F, seen: &mut Table<Kind>, locals: &Table<Kind>, local: u32)
    requires { IsLinkedFile (F.file flow.now) }
    ensures { NotedAt (F.file flow.now) seen.old locals.now local seen.new }
{
    if let Some(before) = seen.fetch(local as usize)
        && let Some(now) = locals.fetch(local as usize)
    {
        seen.set(local as usize, flow.join(before, now));
    }
}

/// Joins two locals to what was seen of them.
fn note_two<F: Flow>(
    flow: &F,
    seen: &mut Table<Kind>,
    locals: &Table<Kind>,
    first: u32,
    second: u32,
)
    requires { IsLinkedFile (F.file flow.now) }
    ensures { NotesWritten (F.file flow.now) (writes.Two first second) seen.old locals.now seen.new }
{
    note_one(flow, seen, locals, first);
    note_one(flow, seen, locals, second);
}

/// Joins the locals that a step wrote to what was seen of them.
pub(crate) fn note<F: Flow>(
    flow: &F,
    seen: &mut Table<Kind>,
    locals: &Table<Kind>,
    written: Written,
)
    requires { IsLinkedFile (F.file flow.now) }
    ensures { NotesWritten (F.file flow.now) written seen.old locals.now seen.new }
{
    match written {
        Written::Nothing => {}
        Written::One(local) => note_one(flow, seen, locals, local),
        Written::Two(first, second) => note_two(flow, seen, locals, first, second),
    }
}
