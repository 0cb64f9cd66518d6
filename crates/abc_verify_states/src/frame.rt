ghost use Rattle.std.specs.Prelude.{◌≡◌, ◌<◌, ◌-◌, IfOk, if◌then◌else◌, length};
ghost use Rattle.abc_link_names.specs.Owners.{owner_of};
ghost use Rattle.abc_link_names.specs.PartsByNumber.{body_at, method_at};
ghost use Rattle.abc_verify_typing.specs.Routines.{has_base, home_of, is_unsupported as is_unsupported_by, routine, routine_with};
ghost use Rattle.abc_verify_typing.specs.declared.home.Home.TheVariants as homes;
ghost use Rattle.abc_link_names.specs.Instances.{instance_at};
ghost use Rattle.abc_verify_states.specs.Frames.{routine_of_frame};

use crate::catches::catches_of;
use crate::filled::{filled_of, flags_of};
use abc_base::{NoMemory, Table};
use abc_file_types::{Body, Instr, has_flag};
use abc_link::Linked;
use abc_link_names::{Kind, LayoutId, Owner, Part};
use abc_verify_typing::{Catch, Home};
use std::alloc::Global;

/// A method with its body.
#[derive(Drop)]
pub struct Frame<'a> {
    /// What a call fills: `this`, the parameters, and the array that the flags ask for.
    pub filled: Table<Kind>,
    pub home: Home,
    pub needs_activation: bool,
    /// Whether the method's flags are none of this profile.
    pub unsupported: bool,
    /// The layout of its activations.
    pub activation: LayoutId,
    pub max_stack: u32,
    pub local_count: u32,
    /// How many local scopes there may be.
    pub scope_size: u32,
    pub code: &'a Table<Instr>,
    pub handlers: Table<Catch>,
}

/// The name of the base of a class; 0 is none.
#[tactic(auto, using(abc_base::proofs::Past::past_end))]
fn base_name(linked: &Linked, class: u32) -> u32
    ensures { result ≡ (instance_at linked.now.file class).super_name }
{
    match linked.abc().instances.find(class as usize) {
        Some(instance) => instance.super_name,
        None => 0,
    }
}

/// Whether a class has a base.
fn is_derived(linked: &Linked, class: u32) -> bool
    ensures { result ≡ has_base linked.now class }
{
    base_name(linked, class) > 0
}

/// Where a method of a class stands, which has a base or not.
fn home_if(is_derived: bool, home: Home) -> Home
    ensures { result ≡ (if is_derived then home else homes.Elsewhere) }
{
    if is_derived { home } else { Home::Elsewhere }
}

/// Where a method of an owner stands.
fn home_of_owner(linked: &Linked, owner: Owner) -> Home
    ensures { result ≡ home_of linked.now owner }
{
    match owner {
        Owner::Iinit(class) => {
            let layout = linked.layout_of(Part::Instance(class));
            home_if(is_derived(linked, class), Home::MakesInstances(layout))
        }
        Owner::Instance(class) => {
            let layout = linked.layout_of(Part::Instance(class));
            home_if(is_derived(linked, class), Home::OnInstances(layout))
        }
        Owner::Free => Home::Elsewhere,
        Owner::ScriptInit(_) => Home::Elsewhere,
        Owner::ScriptMethod(_) => Home::Elsewhere,
        Owner::ClassInit(_) => Home::Elsewhere,
        Owner::Static(_) => Home::Elsewhere,
    }
}

/// Whether flags are none of this profile.
fn is_unsupported(flags: u8) -> bool
    ensures { result ≡ is_unsupported_by flags }
{
    has_flag(flags, 0x40) || has_flag(flags, 0x01) && has_flag(flags, 0x04)
}

/// How many local scopes a body may have.
fn scopes_of(body: &Body) -> u32
    ensures { result ≡ body.now.max_scope - body.now.init_scope }
{
    body.max_scope.saturating_sub(body.init_scope)
}

/// A body with its method.
fn frame_in<'a>(
    alloc: Global,
    linked: &'a Linked,
    number: u32,
    body: &'a Body,
) -> Result<Frame<'a>, NoMemory>
    ensures { IfOk result (λ f. routine_of_frame f
        ≡ routine_with linked.now number body.now (method_at linked.now.file body.now.method)
        (owner_of linked.now.file body.now.method)) }
{
    let filled = filled_of(alloc, linked, body.method)?;
    let handlers = catches_of(alloc, linked, number, &body.handlers)?;
    let whose = linked.owner(body.method);
    let home = home_of_owner(linked, whose);
    let flags = flags_of(linked, body.method);
    let needs_activation = has_flag(flags, 0x02);
    let unsupported = is_unsupported(flags);
    let activation = linked.layout_of(Part::Activation(number));
    let scope_size = scopes_of(body);
    Ok(Frame {
        filled,
        home,
        needs_activation,
        unsupported,
        activation,
        max_stack: body.max_stack,
        local_count: body.local_count,
        scope_size,
        code: &body.code,
        handlers,
    })
}

/// A body of the file.
fn body_numbered(linked: &Linked, body: u32) -> &Body
    requires { body < length linked.now.file.bodies }
    ensures { result.now ≡ body_at linked.now.file body }
{
    linked.abc().bodies.get(body as usize)
}

/// A body, by its number, with its method. It answers [`NoMemory`] where memory runs out, or where there are 2^32 handlers or
/// more, for which there is never room.
pub fn frame_of(alloc: Global, linked: &Linked, body: u32) -> Result<Frame<'_>, NoMemory>
    requires { body < length linked.now.file.bodies }
    ensures { IfOk result (λ f. routine_of_frame f ≡ routine linked.now body) }
{
    let found = body_numbered(linked, body);
    let frame = frame_in(alloc, linked, body, found)?;
    Ok(frame)
}
