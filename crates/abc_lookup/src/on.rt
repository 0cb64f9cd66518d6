ghost use Rattle.std.specs.Prelude.{◌≡◌};
ghost use Rattle.abc_objects.specs.Stands.{IsObjectOrNone, StandsOver};
ghost use Rattle.abc_objects.specs.Values.{Exists, IsObject};
ghost use Rattle.abc_objects.specs.Candidates.{answer_of_search, candidates_on, holder_of, things_along, traits_of_object, traits_on, where_public};
ghost use Rattle.abc_objects.specs.Objects.{host_prototype, number_of_object};

use crate::query::Query;
use abc_base::HostClass;
use abc_heap_values::{ObjId, Value};
use abc_objects::Found;

impl Query<'_> {
    /// What the declared traits of an object give.
    #[inline(always)]
    pub(crate) fn find_trait_of(&self, o: ObjId) -> Found
        requires over { StandsOver self.now.l.now self.now.a.now }
        requires inside { IsObject self.now.a.now o }
        ensures { result
            ≡ answer_of_search self.now.l.now self.now.a.now self.now.name self.now.skip
            (traits_of_object self.now.l.now self.now.a.now o.0) }
    {
        let layout = self.a.layout(o);
        self.find_declared(layout, layout)
    }

    /// What the declared traits of a value give.
    #[inline(always)]
    fn find_trait_on(&self, holder: Value) -> Found
        requires over { StandsOver self.now.l.now self.now.a.now }
        requires holder { Exists self.now.l.now self.now.a.now holder }
        ensures { result
            ≡ answer_of_search self.now.l.now self.now.a.now self.now.name self.now.skip
            (traits_on self.now.l.now self.now.a.now holder) }
    {
        match holder {
            Value::Obj(o) => self.find_trait_of(o),
            _ => Found::Missing,
        }
    }

    /// The prototype of a class of the host, if it has one.
    fn prototype(&self, class: HostClass) -> Option<ObjId>
        requires { StandsOver self.now.l.now self.now.a.now }
        ensures is { result ≡ host_prototype self.now.a.now class }
        ensures inside { IsObjectOrNone self.now.a.now result }
    {
        match self.a.slot(self.a.host_class(class), 0) {
            Value::Obj(prototype) => Some(prototype),
            _ => None,
        }
    }

    /// The object itself, or the prototype of the class of a value that is none.
    #[inline(always)]
    fn holder_of(&self, holder: Value) -> Option<ObjId>
        requires over { StandsOver self.now.l.now self.now.a.now }
        requires holder { Exists self.now.l.now self.now.a.now holder }
        ensures is { number_of_object result ≡ holder_of self.now.a.now holder }
        ensures inside { IsObjectOrNone self.now.a.now result }
    {
        match holder {
            Value::Undefined | Value::Null => None,
            Value::Num(_) => self.prototype(HostClass::Number),
            Value::Bool(_) => self.prototype(HostClass::Boolean),
            Value::Text(_) => self.prototype(HostClass::Str),
            Value::Space(_) => self.prototype(HostClass::Namespace),
            Value::Obj(o) => Some(o),
        }
    }

    /// What a value and its delegates have of their own gives, where the name holds the public namespace or any.
    #[inline(always)]
    fn find_public_on(&self, holder: Value) -> Found
        requires over { StandsOver self.now.l.now self.now.a.now }
        requires holder { Exists self.now.l.now self.now.a.now holder }
        ensures { result
            ≡ answer_of_search self.now.l.now self.now.a.now self.now.name self.now.skip
            (where_public self.now.l.now self.now.name
            (things_along self.now.a.now (holder_of self.now.a.now holder))) }
    {
        if !self.public {
            return Found::Missing;
        }
        self.find_along(self.holder_of(holder))
    }

    /// What a value's traits, and then what it and its delegates have of their own, give.
    #[inline(always)]
    pub(crate) fn find_on(&self, holder: Value) -> Found
        requires over { StandsOver self.now.l.now self.now.a.now }
        requires holder { Exists self.now.l.now self.now.a.now holder }
        ensures { result
            ≡ answer_of_search self.now.l.now self.now.a.now self.now.name self.now.skip
            (candidates_on self.now.l.now self.now.a.now self.now.name holder) }
    {
        let declared = self.find_trait_on(holder);
        if declared.is_hit() {
            return declared;
        }
        declared.or(self.find_public_on(holder))
    }
}
