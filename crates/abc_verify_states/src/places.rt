ghost use Rattle.std.specs.Prelude.{◌≡◌};
ghost use Rattle.abc_verify_typing.specs.Instructions.{local, second_local};
ghost use Rattle.abc_verify_typing.specs.Rules.{has_locals, may_pop, may_push, super_layout};

use abc_file_types::Instr;
use abc_link_names::LayoutId;
use abc_verify_typing::{Home, Locals, Scoping, Site, local_of, second_of};

/// The layout that a super operation is about, where it is permitted.
pub fn layout_of_super(site: Site, home: Home) -> Option<LayoutId>
    ensures { result ≡ super_layout site home }
{
    match (site, home) {
        (Site::OnInstance, Home::OnInstances(layout)) => Some(layout),
        (Site::OnInstance, Home::MakesInstances(layout)) => Some(layout),
        (Site::InMaker, Home::MakesInstances(layout)) => Some(layout),
        _ => None,
    }
}

/// Whether there is a scope to pop, if one is popped.
pub fn pops_well(scoping: Scoping, count: usize) -> bool
    ensures { result ≡ may_pop scoping count }
{
    match scoping {
        Scoping::Pops => count > 0,
        _ => true,
    }
}

/// Whether there is room for a scope, if one is pushed.
pub fn pushes_well(scoping: Scoping, count: usize, size: usize) -> bool
    ensures { result ≡ may_push scoping count size }
{
    match scoping {
        Scoping::Pushes(_) => count < size,
        _ => true,
    }
}

/// Whether the locals that an instruction names are below their number, and two of them are not the same.
#[inline(never)]
pub fn has_good_locals(locals: Locals, instr: &Instr, count: u32) -> bool
    ensures { result ≡ has_locals locals instr.now count }
{
    match locals {
        Locals::Untouched => true,
        Locals::Walks => {
            local_of(instr) < count
                && second_of(instr) < count
                && local_of(instr) != second_of(instr)
        }
        Locals::Reads => local_of(instr) < count,
        Locals::Sets(_) => local_of(instr) < count,
    }
}
