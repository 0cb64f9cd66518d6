ghost use Rattle.std.specs.Prelude.{◌≡◌, ◌∷◌};
ghost use Rattle.abc_heap_store.specs.Heap.{elements_of, object_at};
ghost use Rattle.abc_objects.specs.Stands.{IsObjectOrNone, StandsOver};
ghost use Rattle.abc_objects.specs.Values.{IsObject};
ghost use Rattle.abc_objects.specs.Candidates.{OfLength, answer_of_search, element_candidates, elements_from, own_things, property_candidates, things_along};
ghost use Rattle.abc_objects.specs.Objects.{number_of_object};

use crate::elements::element_number;
use crate::query::Query;
use abc_heap_values::ObjId;
use abc_objects::Found;

impl Query<'_> {
    /// What an array's elements give.
    #[inline(always)]
    fn find_numbered(&self, o: ObjId) -> Found
        requires { IsObject self.now.a.now o }
        ensures { result
            ≡ answer_of_search self.now.l.now self.now.a.now self.now.name self.now.skip
            (elements_from o.0 0 (elements_of self.now.a.now.objects o.0)) }
    {
        match element_number(self.text) {
            Some(index) => {
                if index < self.a.length(o) {
                    Found::Element { holder: o, index }
                } else {
                    Found::Missing
                }
            }
            None => Found::Missing,
        }
    }

    /// What an array's length and elements give.
    #[inline(always)]
    fn find_in_array(&self, o: ObjId) -> Found
        requires { IsObject self.now.a.now o }
        ensures { result
            ≡ answer_of_search self.now.l.now self.now.a.now self.now.name self.now.skip
            (OfLength o.0 ∷ elements_from o.0 0 (elements_of self.now.a.now.objects o.0)) }
    {
        if self.text == b"length".as_slice() {
            return Found::Length(o);
        }
        self.find_numbered(o)
    }

    /// What the length and elements of an array give, and of another object nothing.
    #[inline(always)]
    fn find_element(&self, o: ObjId) -> Found
        requires { IsObject self.now.a.now o }
        ensures { result
            ≡ answer_of_search self.now.l.now self.now.a.now self.now.name self.now.skip
            (element_candidates o.0 (object_at self.now.a.now.objects o.0)) }
    {
        if !self.a.is_array(o) {
            return Found::Missing;
        }
        self.find_in_array(o)
    }

    /// What an object's dynamic properties give.
    #[inline(always)]
    pub(crate) fn find_property(&self, o: ObjId) -> Found
        requires over { StandsOver self.now.l.now self.now.a.now }
        requires inside { IsObject self.now.a.now o }
        ensures { result
            ≡ answer_of_search self.now.l.now self.now.a.now self.now.name self.now.skip
            (property_candidates o.0 (object_at self.now.a.now.objects o.0)) }
    {
        match self.a.property(self.l, o, self.name.text) {
            Some(value) => Found::Property { holder: o, value },
            None => Found::Missing,
        }
    }

    /// What an object has of its own gives, elements first.
    #[inline(always)]
    pub(crate) fn find_own(&self, o: ObjId) -> Found
        requires over { StandsOver self.now.l.now self.now.a.now }
        requires inside { IsObject self.now.a.now o }
        ensures { result
            ≡ answer_of_search self.now.l.now self.now.a.now self.now.name self.now.skip
            (own_things self.now.a.now o.0) }
    {
        let element = self.find_element(o);
        if element.is_hit() {
            return element;
        }
        element.or(self.find_property(o))
    }

    /// What an object and its delegates have of their own gives.
    #[inline(always)]
    pub(crate) fn find_along(&self, holder: Option<ObjId>) -> Found
        requires over { StandsOver self.now.l.now self.now.a.now }
        requires inside { IsObjectOrNone self.now.a.now holder }
        ensures { result
            ≡ answer_of_search self.now.l.now self.now.a.now self.now.name self.now.skip
            (things_along self.now.a.now (number_of_object holder)) }
    {
        let mut so_far = Found::Missing;
        let mut at = holder;
        while let Some(o) = at {
            so_far = so_far.or(self.find_own(o));
            if so_far.is_hit() {
                break;
            }
            at = self.a.delegate(o);
        }
        so_far
    }
}
