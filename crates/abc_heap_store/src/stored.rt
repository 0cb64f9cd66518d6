ghost use Rattle.std.specs.Prelude.{◌≡◌};
ghost use Rattle.abc_heap_store.specs.What.{what_in, elements_in, is_array};
ghost use Rattle.abc_heap_store.specs.declared.records.What.TheVariants.{ClassObject, Closure};

use crate::records::{ScopeId, What};
use abc_base::HostClass;
use abc_heap_values::{Chain, ObjId};

/// What an object is, in at most 20 bytes: what may be missing makes a variant of its own. An array keeps the list of its
/// elements here.
#[derive(Clone, Copy, Debug)]
pub enum StoredWhat {
    Plain,
    Free {
        method: u32,
        home: u32,
        scope: Option<ScopeId>,
    },
    Bound {
        method: u32,
        home: u32,
        bound: ObjId,
    },
    BoundWithin {
        method: u32,
        home: u32,
        scope: ScopeId,
        bound: ObjId,
    },
    OuterClass {
        class: u32,
        home: u32,
        instances: ScopeId,
    },
    InnerClass {
        class: u32,
        home: u32,
        statics: ScopeId,
        instances: ScopeId,
    },
    HostClass(HostClass),
    Trace,
    Formula(u32),
    HostObject,
    Global(u32),
    Activation,
    Catch,
    Array(Chain),
}

/// A closure, as it is kept.
fn stored_closure(
    method: u32,
    home: u32,
    scope: Option<ScopeId>,
    bound: Option<ObjId>,
) -> StoredWhat
    ensures what { what_in result ≡ Closure method home scope bound }
    ensures elements { elements_in result ≡ record { last = 0; count = 0 } }
{
    match (bound, scope) {
        (None, scope) => StoredWhat::Free {
            method,
            home,
            scope,
        },
        (Some(bound), None) => StoredWhat::Bound {
            method,
            home,
            bound,
        },
        (Some(bound), Some(scope)) => StoredWhat::BoundWithin {
            method,
            home,
            scope,
            bound,
        },
    }
}

/// What an object is, as it is kept, where it has no elements.
pub fn stored(what: What) -> StoredWhat
    ensures what { what_in result ≡ what }
    ensures elements { elements_in result ≡ record { last = 0; count = 0 } }
{
    match what {
        What::Plain => StoredWhat::Plain,
        What::Closure {
            method,
            home,
            scope,
            bound,
        } => stored_closure(method, home, scope, bound),
        What::ClassObject {
            class,
            home,
            statics: None,
            instances,
        } => StoredWhat::OuterClass {
            class,
            home,
            instances,
        },
        What::ClassObject {
            class,
            home,
            statics: Some(statics),
            instances,
        } => StoredWhat::InnerClass {
            class,
            home,
            statics,
            instances,
        },
        What::HostClass(class) => StoredWhat::HostClass(class),
        What::Trace => StoredWhat::Trace,
        What::Formula(number) => StoredWhat::Formula(number),
        What::HostObject => StoredWhat::HostObject,
        What::Global(script) => StoredWhat::Global(script),
        What::Activation => StoredWhat::Activation,
        What::Catch => StoredWhat::Catch,
        What::Array => StoredWhat::Array(Chain { last: 0, count: 0 }),
    }
}

/// A closure.
fn closure(method: u32, home: u32, scope: Option<ScopeId>, bound: Option<ObjId>) -> What
    ensures { result ≡ Closure method home scope bound }
{
    What::Closure {
        method,
        home,
        scope,
        bound,
    }
}

/// A class object.
fn class_object(class: u32, home: u32, statics: Option<ScopeId>, instances: ScopeId) -> What
    ensures { result ≡ ClassObject class home statics instances }
{
    What::ClassObject {
        class,
        home,
        statics,
        instances,
    }
}

/// What an object is, from what is kept.
#[inline(always)]
pub fn restored(kept: StoredWhat) -> What
    ensures { result ≡ what_in kept }
{
    match kept {
        StoredWhat::Plain => What::Plain,
        StoredWhat::Free {
            method,
            home,
            scope,
        } => closure(method, home, scope, None),
        StoredWhat::Bound {
            method,
            home,
            bound,
        } => closure(method, home, None, Some(bound)),
        StoredWhat::BoundWithin {
            method,
            home,
            scope,
            bound,
        } => closure(method, home, Some(scope), Some(bound)),
        StoredWhat::OuterClass {
            class,
            home,
            instances,
        } => class_object(class, home, None, instances),
        StoredWhat::InnerClass {
            class,
            home,
            statics,
            instances,
        } => class_object(class, home, Some(statics), instances),
        StoredWhat::HostClass(class) => What::HostClass(class),
        StoredWhat::Trace => What::Trace,
        StoredWhat::Formula(number) => What::Formula(number),
        StoredWhat::HostObject => What::HostObject,
        StoredWhat::Global(script) => What::Global(script),
        StoredWhat::Activation => What::Activation,
        StoredWhat::Catch => What::Catch,
        StoredWhat::Array(_elements) => What::Array,
    }
}

/// Whether what is kept is an array.
#[inline(always)]
pub fn is_kept_array(kept: StoredWhat) -> bool
    ensures { result ≡ is_array (what_in kept) }
{
    match kept {
        StoredWhat::Array(_elements) => true,
        _ => false,
    }
}

/// The list of an object's elements.
pub fn elements_kept(what: StoredWhat) -> Chain
    ensures { result ≡ elements_in what }
{
    match what {
        StoredWhat::Array(elements) => elements,
        _ => Chain { last: 0, count: 0 },
    }
}
