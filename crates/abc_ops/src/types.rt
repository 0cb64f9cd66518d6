ghost use Rattle.std.specs.Prelude.{◌↔◌, IsTrue};
ghost use Rattle.abc_link_names.specs.Parts.{HasLayout};
ghost use Rattle.abc_objects.specs.Stands.{StandsOver};
ghost use Rattle.abc_objects.specs.Values.{Exists};
ghost use Rattle.abc_ops.specs.Types.{IsBool, IsInstanceOf, IsInt, IsNum, IsObjectOf, IsOf, IsSomething, IsSpaceValue, IsTextValue, IsUInt, IsUndefined, NamesInterface};

use abc_heap_values::Value;
use abc_kinds::is_below;
use abc_link::Linked;
use abc_link_names::{LayoutId, Part, Ty};
use abc_objects::Arena;

fn is_undefined(v: Value) -> bool
    ensures { IsTrue result ↔ IsUndefined v }
{
    match v {
        Value::Undefined => true,
        _ => false,
    }
}

fn is_something(v: Value) -> bool
    ensures { IsTrue result ↔ IsSomething v }
{
    match v {
        Value::Undefined | Value::Null => false,
        _ => true,
    }
}

fn is_int(v: Value) -> bool
    ensures { IsTrue result ↔ IsInt v }
{
    match v {
        Value::Num(n) => n <= 2147483647,
        _ => false,
    }
}

fn is_uint(v: Value) -> bool
    ensures { IsTrue result ↔ IsUInt v }
{
    match v {
        Value::Num(n) => n >= 0,
        _ => false,
    }
}

fn is_num(v: Value) -> bool
    ensures { IsTrue result ↔ IsNum v }
{
    match v {
        Value::Num(_) => true,
        _ => false,
    }
}

fn is_bool(v: Value) -> bool
    ensures { IsTrue result ↔ IsBool v }
{
    match v {
        Value::Bool(_) => true,
        _ => false,
    }
}

fn is_text_value(v: Value) -> bool
    ensures { IsTrue result ↔ IsTextValue v }
{
    match v {
        Value::Text(_) => true,
        _ => false,
    }
}

fn is_space_value(v: Value) -> bool
    ensures { IsTrue result ↔ IsSpaceValue v }
{
    match v {
        Value::Space(_) => true,
        _ => false,
    }
}

/// Whether a value is an object whose layout is the given one or stands under it.
fn is_object_of(l: &Linked, a: &Arena, layout: LayoutId, v: Value) -> bool
    requires over { StandsOver l.now a.now }
    requires value { Exists l.now a.now v }
    ensures { IsTrue result ↔ IsObjectOf l.now a.now layout.0 v }
{
    match v {
        Value::Obj(o) => is_below(l, a.layout(o), layout),
        _ => false,
    }
}

/// Whether a part is the instances of a class that names an interface.
fn names_interface(l: &Linked, part: Part, interface: u32) -> bool
    requires { HasLayout l.now.file part }
    ensures { IsTrue result ↔ NamesInterface l.now interface part }
{
    match part {
        Part::Instance(class) => l.implements(class, interface),
        _ => false,
    }
}

/// Whether a value is an instance of a class that names an interface.
fn is_instance_of(l: &Linked, a: &Arena, interface: u32, v: Value) -> bool
    requires over { StandsOver l.now a.now }
    requires value { Exists l.now a.now v }
    ensures { IsTrue result ↔ IsInstanceOf l.now a.now interface v }
{
    match v {
        Value::Obj(o) => names_interface(l, l.part_of(a.layout(o)), interface),
        _ => false,
    }
}

/// Whether a value is of a type. Undefined and null are of no type but any, and undefined is of void.
pub fn is_of(l: &Linked, a: &Arena, ty: Ty, v: Value) -> bool
    requires over { StandsOver l.now a.now }
    requires value { Exists l.now a.now v }
    ensures { IsTrue result ↔ IsOf l.now a.now ty v }
{
    match ty {
        Ty::Any => true,
        Ty::Void => is_undefined(v),
        Ty::Object => is_something(v),
        Ty::Int => is_int(v),
        Ty::UInt => is_uint(v),
        Ty::Number => is_num(v),
        Ty::Boolean => is_bool(v),
        Ty::Text => is_text_value(v),
        Ty::Space => is_space_value(v),
        Ty::Of(layout) => is_object_of(l, a, layout, v),
        Ty::Interface(interface) => is_instance_of(l, a, interface, v),
    }
}
