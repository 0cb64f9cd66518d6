ghost use Rattle.std.specs.Prelude.{◌≡◌, ◌++◌, IfOk, OnOk, length};
ghost use Rattle.abc_verify_typing.specs.Routines.{catches_from};
ghost use Rattle.abc_verify_states.specs.Frames.{catch_in};

use crate::lookup::type_or_any;
use abc_base::{NoMemory, Table};
use abc_file_types::Handler;
use abc_link::Linked;
use abc_link_names::Part;
use abc_verify_typing::Catch;
use std::alloc::Global;

/// A handler of a body, by its number.
fn catch_of(linked: &Linked, body: u32, number: u32, handler: &Handler) -> Catch
    ensures { result ≡ catch_in linked.now body number handler.now }
{
    let kind = type_or_any(linked, handler.exc_type);
    let layout = linked.layout_of(Part::Catch(body, number));
    Catch {
        from: handler.from,
        to: handler.to,
        target: handler.target,
        kind,
        layout,
    }
}

/// Adds the handlers of a body.
fn push_catches(
    list: &mut Table<Catch>,
    linked: &Linked,
    body: u32,
    handlers: &Table<Handler>,
    count: u32,
) -> Result<(), NoMemory>
    requires { count ≡ length handlers.now }
    ensures { OnOk result (list.new ≡ list.old ++ catches_from linked.now body 0 handlers.now) }
{
    for number in 0..count {
        let caught = catch_of(linked, body, number, handlers.get(number as usize));
        list.push(caught)?;
    }
    Ok(())
}

/// The handlers of a body. Of 2^32 or more there is never room for all.
pub(crate) fn catches_of(
    alloc: Global,
    linked: &Linked,
    body: u32,
    handlers: &Table<Handler>,
) -> Result<Table<Catch>, NoMemory>
    ensures { IfOk result (λ t. t ≡ catches_from linked.now body 0 handlers.now) }
{
    let count = handlers.len();
    if count > u32::MAX as usize {
        return Err(NoMemory);
    }
    let mut list = Table::new(alloc);
    push_catches(&mut list, linked, body, handlers, count as u32)?;
    Ok(list)
}
