ghost use Rattle.std.specs.Prelude.{◌≡◌, ◌≢◌, ◌<◌, ◌≤◌, ◌+◌, ◌-◌, ◌++◌, length, true, false, Some, None, slice_get, get_or, replicate, is_some, MatchResult, IfOk};
ghost use Rattle.abc_heap_values.specs.declared.values.Value.TheVariants.{Undefined};
ghost use Rattle.std.specs.Fmt.{signed_decimal};
ghost use Rattle.abc_base.specs.Ranges.{IsNumber};
ghost use Rattle.abc_heap_store.specs.What.{is_array};
ghost use Rattle.abc_heap_store.specs.Heap.{object_at, slots_of_object, properties_of, elements_of, cells_used, ledger, IsFull, IsFullOf, FitsCells, PassesFrames};
ghost use Rattle.abc_heap_store.specs.Texts.{IsText, text_of, IsTextMade};
ghost use Rattle.abc_heap_store.specs.Properties.{place_of_property, property_in_heap, with_delete, the_name, at_position, place_after, walked_value, walked_next};
ghost use Rattle.abc_heap_store.specs.Changes.{with_object, with_slot, with_element, with_new_element, IsMade, IsFunctionMade, IsArrayMade};
ghost use Rattle.abc_heap_store.specs.declared.records.Limit.TheVariants.{Cells, Text};
ghost use Rattle.abc_base.specs.declared.names.HostClass.TheVariants.{Function, Object};
ghost use Rattle.abc_link_names.specs.Linked.{LinkedFile, IsLayout};
ghost use Rattle.abc_objects.specs.Answers.{MakesClass, PutsProperty};
ghost use Rattle.abc_objects.specs.Fixed.{fixed_span, fixed_name};
ghost use Rattle.abc_objects.specs.Opening.{IsHeapOpened, IsUnopened, host_class_object as class_object_of, entry_of, formula_names, opening_global_number, global_object, host_object as host_object_of, opening_host_object, opening_counts, property_names};
ghost use Rattle.abc_objects.specs.Stands.{StandsOver, IsMadeAs, IsObjectOrNone, IsScope, NamesParts, IsMadeAlone, AreEntries, EachAt, array_layout, array_prototype, host_class_number, host_layout, prototype_of};
ghost use Rattle.abc_objects.specs.Starts.{start_values};
ghost use Rattle.abc_objects.specs.Values.{Exists, IsValueOf, IsObject, slot_kind_of_object};

use crate::error::OpenError;
use crate::fixed::FixedText;
use crate::hosts::class_number;
use crate::opening::open_store;
use crate::starts::starts_of;
use abc_base::{Host, HostClass};
use abc_heap_store::{ClassParts, Full, Limits, ScopeEntry, ScopeId, ScopeNode, Store, What};
use abc_heap_values::{ObjId, Span, Value};
use abc_link::Linked;
use abc_link_names::{LayoutId, Part};
use std::alloc::Global;
use std::marker::Model;

/// The objects, captured scopes and texts of a run. No call but `open` takes memory.
#[derive(Debug, Drop)]
pub struct Arena {
    store: Store,
}

impl Model for Arena {
    ghost use Rattle.abc_heap_store.specs.Heap.{Heap};

    ghost Value = { Heap };

    ghost view = { λ a. a.store };
}

impl Arena {
    /// Opens an arena over a file, with what every run begins with: the prototypes of the host's classes, their class
    /// objects, `trace`, the formulas, the host object, and the global objects with their scope entries. It answers
    /// `TooSmall` exactly where there are more objects or, tried next, more cells of these than the limits allow.
    pub fn open<H: Host>(
        alloc: Global,
        l: &Linked,
        limits: &Limits,
        host: &H,
    ) -> Result<Arena, OpenError>
        ensures opened { MatchResult result
            (IsHeapOpened l.now (formula_names (H.formulas host.now)) limits.now)
            (IsUnopened (opening_counts l.now (length (H.formulas host.now))) limits.now) }
        ensures counts { IfOk result (λ a. ledger a ≡ opening_counts l.now (length (H.formulas host.now))) }
        ensures over { IfOk result (λ a. StandsOver l.now a) }
    {
        l.linked_law();
        l.slots_law();
        let store = open_store(alloc, l, limits, host)?;
        Ok(Arena { store })
    }

    /// How much of each limit is used.
    pub fn counts(&self) -> Limits
        ensures { result ≡ ledger self.now }
    {
        self.store.counts()
    }

    /// Makes an object of a layout, last, with the slots of the layout at their start values. It is a plain object, a
    /// function, an activation or a catch object.
    pub fn new_object(
        &mut self,
        l: &Linked,
        layout: LayoutId,
        delegate: Option<ObjId>,
        what: What,
    ) -> Result<ObjId, Full>
        requires over { StandsOver l.now self.old }
        requires layout { IsLayout l.now layout }
        requires no_array { layout.0 ≢ array_layout l.now }
        requires delegate { IsObjectOrNone self.old delegate }
        requires what { IsMadeAlone what }
        requires names { NamesParts l.now self.old what }
        ensures made { MatchResult result
            (λ o. IsMade self.old self.new o (start_values l.now layout.0) layout.0 delegate what)
            (λ e. IsFullOf self.old self.new 1 (length (start_values l.now layout.0)) e) }
        ensures over { StandsOver l.now self.new }
    {
        let starts = starts_of(l, layout);
        self.store.new_object(layout.0, delegate, what, &starts)
    }

    /// Makes an unbound function, last, which keeps scopes above the saved one.
    pub fn new_function(
        &mut self,
        l: &Linked,
        method: u32,
        home: u32,
        delegate: Option<ObjId>,
        saved: Option<ScopeId>,
        scopes: &[ScopeEntry],
    ) -> Result<ObjId, Full>
        requires over { StandsOver l.now self.old }
        requires method { method < length l.now.file.methods }
        requires home { home < length l.now.file.scripts }
        requires delegate { IsObjectOrNone self.old delegate }
        requires saved { IsScope self.old saved }
        requires scopes { AreEntries self.old scopes.now }
        ensures made { MatchResult result (λ o. IsFunctionMade self.old self.new o
            (start_values l.now (host_layout l.now Function)) (host_layout l.now Function) method home
            delegate saved scopes.now) (λ e. IsFullOf self.old self.new 1
            (length (start_values l.now (host_layout l.now Function)) + length scopes.now) e) }
        ensures over { StandsOver l.now self.new }
    {
        let layout = l.layout_of(Part::Host(HostClass::Function));
        let starts = starts_of(l, layout);
        self.store
            .new_function(layout.0, method, home, delegate, saved, scopes, &starts)
    }

    /// The object that the prototype slot of a host class's class object holds, if it holds one.
    fn prototype(&self, class: HostClass) -> Option<ObjId>
        requires { 0 < length (slots_of_object self.now.objects (host_class_number class)) }
        ensures { result ≡ prototype_of self.now (host_class_number class) }
    {
        match self.store.slot(self.host_class(class), 0) {
            Value::Obj(prototype) => Some(prototype),
            _ => None,
        }
    }

    /// The class object of a host class.
    pub fn host_class(&self, class: HostClass) -> ObjId
        ensures number { result.0 ≡ host_class_number class }
        ensures is { (l : LinkedFile) → StandsOver l self.now
            → IsMadeAs self.now result (class_object_of l class) }
    {
        ObjId(14 + class_number(class))
    }

    /// The host object.
    pub fn host_object(&self) -> ObjId
        requires { (l : LinkedFile) × StandsOver l self.now }
        ensures number { result.0 ≡ opening_host_object (length self.now.formulas) }
        ensures is { (l : LinkedFile) → StandsOver l self.now
            → IsMadeAs self.now result (host_object_of l (property_names self.now.formulas)) }
    {
        ObjId(29 + self.store.formulas() as u32)
    }

    /// The global object of a script.
    pub fn global(&self, script: u32) -> ObjId
        requires { (l : LinkedFile) × StandsOver l self.now × (script < length l.file.scripts) }
        ensures number { result.0 ≡ opening_global_number (length self.now.formulas) script }
        ensures is { (l : LinkedFile) → StandsOver l self.now → script < length l.file.scripts
            → IsMadeAs self.now result (global_object l script) }
    {
        // The object is one of those that are counted, so its number has 32 bits.
        let _objects = self.store.counts().objects;
        ObjId(30 + self.store.formulas() as u32 + script)
    }

    /// The scope entry of a script's global object.
    pub fn global_scope(&self, script: u32) -> ScopeId
        ensures number { result.0 ≡ script }
        ensures is { (l : LinkedFile) → StandsOver l self.now → script < length l.file.scripts
            → slice_get self.now.scopes result.0
            ≡ Some (entry_of (opening_global_number (length self.now.formulas) script)) }
    {
        ScopeId(script)
    }

    /// Makes a class object and its prototype object, last, which its prototype slot holds. The class keeps scopes above
    /// the saved one for its static methods, and itself above these for those of its instances.
    pub fn new_class(
        &mut self,
        l: &Linked,
        class: u32,
        home: u32,
        base_prototype: Option<ObjId>,
        delegate: Option<ObjId>,
        saved: Option<ScopeId>,
        scopes: &[ScopeEntry],
    ) -> Result<ObjId, Full>
        requires over { StandsOver l.now self.old }
        requires class { class < length l.now.file.instances }
        requires first { get_or self.old.classes class None ≡ None }
        requires home { home < length l.now.file.scripts }
        requires base_prototype { IsObjectOrNone self.old base_prototype }
        requires delegate { IsObjectOrNone self.old delegate }
        requires saved { IsScope self.old saved }
        requires scopes { AreEntries self.old scopes.now }
        ensures made { MakesClass l.now class home base_prototype delegate saved scopes.now self.old self.new
            result }
        ensures over { StandsOver l.now self.new }
    {
        let prototype_layout = l.layout_of(Part::Host(HostClass::Object));
        let class_layout = l.layout_of(Part::ClassObject(class));
        let prototype_starts = starts_of(l, prototype_layout);
        let class_starts = starts_of(l, class_layout);
        let parts = ClassParts {
            class,
            home,
            prototype_layout: prototype_layout.0,
            class_layout: class_layout.0,
            base_prototype,
            delegate,
        };
        self.store
            .new_class(parts, saved, scopes, &prototype_starts, &class_starts)
    }

    /// Makes an array of some values, last. Its delegate is the prototype of Array.
    pub fn new_array(&mut self, l: &Linked, elements: &[Value]) -> Result<ObjId, Full>
        requires over { StandsOver l.now self.old }
        requires values { EachAt (Exists l.now self.old) elements.now }
        ensures made { MatchResult result (λ o. IsArrayMade self.old self.new o elements.now
            (array_layout l.now) (array_prototype self.old))
            (λ e. IsFullOf self.old self.new 1 (length elements.now) e) }
        ensures over { StandsOver l.now self.new }
    {
        let layout = l.layout_of(Part::Host(HostClass::Array));
        let delegate = self.prototype(HostClass::Array);
        self.store.new_array(layout.0, delegate, elements)
    }

    /// Makes an array of some elements that are undefined, last. Its delegate is the prototype of Array.
    pub fn new_undefined(&mut self, l: &Linked, count: u32) -> Result<ObjId, Full>
        requires over { StandsOver l.now self.old }
        ensures made { MatchResult result (λ o. IsArrayMade self.old self.new o (replicate count Undefined)
            (array_layout l.now) (array_prototype self.old)) (λ e. IsFullOf self.old self.new 1 count e) }
        ensures over { StandsOver l.now self.new }
    {
        let layout = l.layout_of(Part::Host(HostClass::Array));
        let delegate = self.prototype(HostClass::Array);
        self.store.new_undefined(layout.0, delegate, count)
    }

    /// The layout of an object.
    pub fn layout(&self, o: ObjId) -> LayoutId
        requires { IsObject self.now o }
        ensures { result.0 ≡ (object_at self.now.objects o.0).layout }
    {
        LayoutId(self.store.layout(o))
    }

    /// The object in which a search goes on after this one.
    pub fn delegate(&self, o: ObjId) -> Option<ObjId>
        requires { IsObject self.now o }
        ensures { result ≡ (object_at self.now.objects o.0).delegate }
    {
        self.store.delegate(o)
    }

    /// What an object is.
    #[inline(always)]
    pub fn what(&self, o: ObjId) -> What
        requires { IsObject self.now o }
        ensures { result ≡ (object_at self.now.objects o.0).what }
    {
        self.store.what(o)
    }

    /// Whether an object is an array.
    #[inline(always)]
    pub fn is_array(&self, o: ObjId) -> bool
        requires { IsObject self.now o }
        ensures { result ≡ is_array (object_at self.now.objects o.0).what }
    {
        self.store.is_array(o)
    }

    /// The value of a slot.
    pub fn slot(&self, o: ObjId, k: u32) -> Value
        requires { k < length (slots_of_object self.now.objects o.0) }
        ensures { slice_get (slots_of_object self.now.objects o.0) k ≡ Some result }
    {
        self.store.slot(o, k)
    }

    /// Writes a slot. The value is of the kind of the slot's type.
    pub fn set_slot(&mut self, l: &Linked, o: ObjId, k: u32, v: Value)
        requires over { StandsOver l.now self.old }
        requires slot { k < length (slots_of_object self.old.objects o.0) }
        requires value { Exists l.now self.old v }
        requires kind { IsValueOf l.now self.old (slot_kind_of_object l.now self.old o k) v }
        ensures heap { self.new ≡ with_object (with_slot k v) o.0 self.old }
        ensures over { StandsOver l.now self.new }
    {
        let _ = l;
        self.store.set_slot(o, k, v);
    }

    /// The value of an own property, or `None` where the object has none of that text.
    #[inline(always)]
    pub fn property(&self, l: &Linked, o: ObjId, name: Span) -> Option<Value>
        requires over { StandsOver l.now self.now }
        requires inside { IsObject self.now o }
        requires name { IsText l.now.file.strings self.now name }
        ensures { result ≡ property_in_heap l.now.file.strings self.now o.0 name }
    {
        let _ = l;
        self.store.property(o, name)
    }

    /// Writes a property: an own one takes the value, else a new one is made, last.
    #[inline(always)]
    pub fn set_property(&mut self, l: &Linked, o: ObjId, name: Span, v: Value) -> Result<(), Full>
        requires over { StandsOver l.now self.old }
        requires inside { IsObject self.old o }
        requires name { IsText l.now.file.strings self.old name }
        requires value { Exists l.now self.old v }
        ensures put { PutsProperty l.now.file.strings o name v self.old self.new result }
        ensures over { StandsOver l.now self.new }
    {
        let _ = l;
        self.store.set_property(o, name, v)
    }

    /// Deletes an own property, and tells whether there was one. Its position stays empty.
    pub fn delete_property(&mut self, l: &Linked, o: ObjId, name: Span) -> bool
        requires over { StandsOver l.now self.old }
        requires inside { IsObject self.old o }
        requires name { IsText l.now.file.strings self.old name }
        ensures was { result ≡ is_some (place_of_property l.now.file.strings self.old o.0 name) }
        ensures heap { self.new
            ≡ with_object
            (with_delete (text_of l.now.file.strings self.old) (text_of l.now.file.strings self.old name))
            o.0 self.old }
        ensures over { StandsOver l.now self.new }
    {
        let _ = l;
        self.store.delete_property(o, name)
    }

    /// The least filled position above one, or above 0 where that is negative, or `None` where there is none.
    pub fn next_position(&self, o: ObjId, after: i64) -> Option<u32>
        requires { IsObject self.now o }
        ensures { result ≡ walked_next (object_at self.now.objects o.0) (place_after after) }
    {
        self.store.next_position(o, after)
    }

    /// The name of the property at a position, or `None` where that is empty or out of range.
    pub fn name_at(&self, o: ObjId, position: u32) -> Option<Span>
        requires inside { IsObject self.now o }
        requires named { is_array (object_at self.now.objects o.0).what ≡ false }
        ensures { result ≡ the_name (at_position (properties_of self.now.objects o.0) position) }
    {
        self.store.name_at(o, position)
    }

    /// The value at a position, or `None` where that is empty or out of range.
    pub fn value_at(&self, o: ObjId, position: u32) -> Option<Value>
        requires { IsObject self.now o }
        ensures { result ≡ walked_value (object_at self.now.objects o.0) position }
    {
        self.store.value_at(o, position)
    }

    /// The number of elements of an array.
    pub fn length(&self, o: ObjId) -> u32
        requires { IsObject self.now o }
        ensures { result ≡ length (elements_of self.now.objects o.0) }
    {
        self.store.length(o)
    }

    /// An element of an array, which counts from 0.
    #[inline(always)]
    pub fn element(&self, o: ObjId, k: u32) -> Value
        requires { k < length (elements_of self.now.objects o.0) }
        ensures { slice_get (elements_of self.now.objects o.0) k ≡ Some result }
    {
        self.store.element(o, k)
    }

    /// Replaces an element of an array. Over any file of which the arena names the parts, it still does.
    #[inline(always)]
    pub fn set_element(&mut self, o: ObjId, k: u32, v: Value)
        requires { k < length (elements_of self.old.objects o.0) }
        ensures heap { self.new ≡ with_object (with_element k v) o.0 self.old }
        ensures over { (l : LinkedFile) → StandsOver l self.old → Exists l self.old v
            → StandsOver l self.new }
    {
        self.store.set_element(o, k, v);
    }

    /// Adds an element at the end of an array.
    pub fn push_element(&mut self, o: ObjId, v: Value) -> Result<(), Full>
        requires inside { IsObject self.old o }
        requires array { is_array (object_at self.old.objects o.0).what ≡ true }
        ensures pushed { MatchResult result
            (λ _. FitsCells self.old self.new 1 (with_object (with_new_element v) o.0 self.old))
            (λ e. IsFull self.old self.new (cells_used self.old) 1 self.old.limits.cells Cells e) }
        ensures over { (l : LinkedFile) → StandsOver l self.old → Exists l self.old v
            → StandsOver l self.new }
    {
        self.store.push_element(o, v)
    }

    /// The class object of a class, or `None` where there is none.
    pub fn class_object(&self, class: u32) -> Option<ObjId>
        requires { class < length self.now.classes }
        ensures { result ≡ get_or self.now.classes class None }
    {
        self.store.class_object(class)
    }

    /// A captured scope.
    pub fn scope(&self, s: ScopeId) -> ScopeNode
        requires { s.0 < length self.now.scopes }
        ensures { slice_get self.now.scopes s.0 ≡ Some result }
    {
        self.store.scope(s)
    }

    /// Where a fixed text lies.
    pub fn fixed_text(&self, text: FixedText) -> Span
        ensures span { result ≡ fixed_span text }
        ensures text { (l : LinkedFile) → StandsOver l self.now
            → text_of l.file.strings self.now result ≡ fixed_name text }
    {
        text.span()
    }

    /// Makes a text of two.
    pub fn text_join(&mut self, l: &Linked, a: Span, b: Span) -> Result<Span, Full>
        requires over { StandsOver l.now self.old }
        requires a { IsText l.now.file.strings self.old a }
        requires b { IsText l.now.file.strings self.old b }
        ensures made { MatchResult result (λ s. IsTextMade self.old self.new s
            (text_of l.now.file.strings self.old a ++ text_of l.now.file.strings self.old b))
            (λ e. IsFull self.old self.new (length self.old.made) (a.len + b.len) self.old.limits.text Text
            e) }
        ensures over { StandsOver l.now self.new }
    {
        self.store.text_join(&l.abc().strings, a, b)
    }

    /// Makes the text of a number.
    pub fn text_of_number(&mut self, n: i64) -> Result<Span, Full>
        requires { IsNumber n }
        ensures made { MatchResult result (λ s. IsTextMade self.old self.new s (signed_decimal n))
            (λ e. IsFull self.old self.new (length self.old.made) (length (signed_decimal n))
            self.old.limits.text Text e) }
        ensures over { (l : LinkedFile) → StandsOver l self.old → StandsOver l self.new }
    {
        self.store.text_of_number(n)
    }

    /// The bytes of a text.
    pub fn text_bytes<'a>(&'a self, l: &'a Linked, s: Span) -> &'a [u8]
        requires { IsText l.now.file.strings self.now s }
        ensures { result.now ≡ text_of l.now.file.strings self.now s }
    {
        self.store.text_bytes(&l.abc().strings, s)
    }

    /// Takes the room of a frame, which keeps some values: the limit of frames is tested first.
    pub fn take_frame(&mut self, values: u32) -> Result<(), Full>
        ensures taken { MatchResult result (λ _. (self.old.frames + 1 ≤ self.old.limits.frames)
            × (self.old.stack + values ≤ self.old.limits.stack)
            × (self.new
            ≡ record self.old { frames = self.old.frames + 1; stack = self.old.stack + values }))
            (λ e. (self.new ≡ self.old) × PassesFrames self.old values e.0) }
        ensures over { (l : LinkedFile) → StandsOver l self.old → StandsOver l self.new }
    {
        self.store.take_frame(values)
    }

    /// Gives back the room of a frame that was taken, with so many values.
    pub fn give_frame(&mut self, values: u32)
        requires frame { 0 < self.old.frames }
        requires values { values ≤ self.old.stack }
        ensures given { self.new
            ≡ record self.old { frames = self.old.frames - 1; stack = self.old.stack - values } }
        ensures over { (l : LinkedFile) → StandsOver l self.old → StandsOver l self.new }
    {
        self.store.give_frame(values);
    }
}
