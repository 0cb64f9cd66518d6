ghost use Rattle.std.specs.Prelude.{◌≡◌, ◌<◌, ◌≤◌, ◌+◌, ◌-◌, ◌++◌, ◌∷◌, [], ℕ, length, Some, None, slice_get, set, replicate, get_or, is_some, true, MatchResult, IfOk};
ghost use Rattle.std.specs.Fmt.{decimal, signed_decimal};
ghost use Rattle.abc_heap_values.specs.declared.values.Value.TheVariants.{Undefined};
ghost use Rattle.abc_heap_store.specs.What.{is_array};
ghost use Rattle.abc_heap_store.specs.Heap.{object_at, slots_of_object, properties_of, elements_of, cells_used, ledger, IsFull, IsFullOf, FitsCells, HasRoomFor, PassesLimit, PassesFrames};
ghost use Rattle.abc_heap_store.specs.Texts.{IsText, text_of, IsTextMade};
ghost use Rattle.abc_heap_store.specs.Properties.{place_of_property, property_in_heap, with_put, with_delete, cells_to_put, the_name, at_position, place_after, walked_value, walked_next, element_at, next_element, next_filled, the_value};
ghost use Rattle.abc_heap_store.specs.Changes.{with_object, with_slot, with_element, with_new_element, with_more_elements, with_new_property, with_made, with_scopes, IsMade, IsFunctionMade, IsClassMade, IsArrayMade, with_array};
ghost use Rattle.abc_heap_store.specs.Scopes.{top_of_scopes};
ghost use Rattle.abc_heap_store.specs.declared.records.Limit.TheVariants.{Cells, Text};

use crate::buckets::Buckets;
use crate::empties::{join_around, next_from};
use crate::heads::{
    Head, add_element, add_object, add_property, element_count, element_place, fill_slots, head_at,
    held_at_position, hold_element, hold_value, property_count, property_name, property_value,
    slot_place, value_of,
};
use crate::records::{Full, Limit, Limits, ScopeEntry, ScopeId, ScopeNode, What};
use crate::scopes::capture;
use crate::search::{bucket_of_name, find};
use crate::starts::Starts;
use crate::stored::{is_kept_array, restored, stored};
use crate::strings::Strings;
use crate::texts::{bytes_in, join, push_bytes};
use abc_base::{Bytes, NoMemory, Table};
use abc_heap_values::{Cell, Held, ObjId, Reserved, Span, Value, cell_at, hold};
use itoa::Buffer;
use std::alloc::Global;
use std::marker::Model;

/// The class of which `new_class` makes the class object, the script that is its home, the layouts of the two objects,
/// and their delegates.
#[derive(Clone, Copy, Debug, PartialEq, Eq)]
pub struct ClassParts {
    pub class: u32,
    pub home: u32,
    pub prototype_layout: u32,
    pub class_layout: u32,
    pub base_prototype: Option<ObjId>,
    pub delegate: Option<ObjId>,
}

/// The objects, scopes and texts of a run, in memory that was reserved once. Contracts see a heap of records. No call but
/// `empty` takes memory.
#[derive(Debug, Drop)]
pub struct Store {
    heads: Reserved<Head>,
    cells: Reserved<Cell>,
    scopes: Reserved<ScopeNode>,
    made: Reserved<u8>,
    fixed: Bytes,
    formulas: Table<Bytes>,
    strings: Strings,
    buckets: Buckets,
    classes: Vec<Option<ObjId>>,
    frames: u32,
    stack: u32,
    limits: Limits,
}

impl Model for Store {
    ghost use Rattle.abc_heap_store.specs.Heap.{Heap};
    ghost use Rattle.abc_heap_store.specs.View.{objects, IsStored};

    ghost Value = { Heap };

    ghost view = { λ a. record {
      objects = objects a.cells.items 0 a.heads.items;
      scopes = a.scopes.items;
      fixed = a.fixed;
      made = a.made.items;
      formulas = a.formulas;
      strings = a.strings;
      classes = a.classes.items;
      frames = a.frames;
      stack = a.stack;
      limits = a.limits;
    } };

    ghost invariant = { λ a. IsStored a.heads a.cells a.scopes a.fixed a.made a.strings a.buckets a.limits };
}

impl Store {
    /// A store with no objects, which holds the memory for its limits, the strings of a file, and room for the class
    /// objects of some classes.
    pub fn empty(
        alloc: Global,
        limits: Limits,
        fixed: Bytes,
        formulas: Table<Bytes>,
        pool: &Table<Bytes>,
        classes: u32,
    ) -> Result<Store, NoMemory>
        ensures { IfOk result (λ a. a
            ≡ record {
              objects = [];
              scopes = [];
              fixed = fixed;
              made = [];
              formulas = formulas;
              strings = pool.now;
              classes = replicate classes None;
              frames = 0;
              stack = 0;
              limits = limits;
            }) }
    {
        Ok(Store {
            heads: Reserved::new(alloc, limits.objects)?,
            cells: Reserved::new(alloc, limits.cells)?,
            scopes: Reserved::new(alloc, limits.cells)?,
            made: Reserved::new(alloc, limits.text)?,
            fixed,
            formulas,
            strings: Strings::copy(alloc, pool)?,
            buckets: Buckets::empty(alloc, limits.cells / 4 + 1, limits.cells)?,
            classes: vec![in alloc; None; classes as usize]?,
            frames: 0,
            stack: 0,
            limits,
        })
    }

    /// How much of each limit is used.
    pub fn counts(&self) -> Limits
        ensures { result ≡ ledger self.now }
    {
        Limits {
            objects: self.heads.len(),
            cells: self.cells.len() + self.scopes.len(),
            text: self.made.len(),
            frames: self.frames,
            stack: self.stack,
        }
    }

    /// The layout of an object.
    pub fn layout(&self, o: ObjId) -> u32
        requires { o.0 < length self.now.objects }
        ensures { result ≡ (object_at self.now.objects o.0).layout }
    {
        head_at(&self.heads, o.0).layout
    }

    /// The delegate of an object.
    pub fn delegate(&self, o: ObjId) -> Option<ObjId>
        requires { o.0 < length self.now.objects }
        ensures { result ≡ (object_at self.now.objects o.0).delegate }
    {
        head_at(&self.heads, o.0).delegate
    }

    /// What an object is.
    #[inline(always)]
    pub fn what(&self, o: ObjId) -> What
        requires { o.0 < length self.now.objects }
        ensures { result ≡ (object_at self.now.objects o.0).what }
    {
        restored(head_at(&self.heads, o.0).what)
    }

    /// Whether an object is an array.
    #[inline(always)]
    pub fn is_array(&self, o: ObjId) -> bool
        requires { o.0 < length self.now.objects }
        ensures { result ≡ is_array (object_at self.now.objects o.0).what }
    {
        is_kept_array(head_at(&self.heads, o.0).what)
    }

    /// The value of a slot.
    pub fn slot(&self, o: ObjId, k: u32) -> Value
        requires { k < length (slots_of_object self.now.objects o.0) }
        ensures { slice_get (slots_of_object self.now.objects o.0) k ≡ Some result }
    {
        let place = slot_place(&self.heads, &self.cells, o.0, k);
        value_of(cell_at(&self.cells, place).held)
    }

    /// Writes a slot.
    pub fn set_slot(&mut self, o: ObjId, k: u32, v: Value)
        requires { k < length (slots_of_object self.old.objects o.0) }
        ensures { self.new ≡ with_object (with_slot k v) o.0 self.old }
    {
        let place = slot_place(&self.heads, &self.cells, o.0, k);
        hold(&mut self.cells, place, Held::Slot(v));
    }

    /// The value of an own property.
    #[inline(always)]
    #[tactic(auto, using(crate::proofs::Flat::length_objects))]
    pub fn property(&self, o: ObjId, name: Span) -> Option<Value>
        requires inside { o.0 < length self.now.objects }
        requires name { IsText self.now.strings self.now name }
        ensures { result ≡ property_in_heap self.now.strings self.now o.0 name }
    {
        match find(
            &self.fixed,
            &self.made,
            &self.strings,
            &self.buckets,
            &self.heads,
            &self.cells,
            o.0,
            name,
        ) {
            Some(spot) => property_value(cell_at(&self.cells, spot.place).held),
            None => None,
        }
    }

    /// Deletes an own property, and tells whether there was one.
    #[tactic(auto, using(crate::proofs::Flat::length_objects))]
    pub fn delete_property(&mut self, o: ObjId, name: Span) -> bool
        requires inside { o.0 < length self.old.objects }
        requires name { IsText self.old.strings self.old name }
        ensures was { result ≡ is_some (place_of_property self.old.strings self.old o.0 name) }
        ensures heap { self.new
            ≡ with_object
            (with_delete (text_of self.old.strings self.old) (text_of self.old.strings self.old name)) o.0
            self.old }
    {
        match find(
            &self.fixed,
            &self.made,
            &self.strings,
            &self.buckets,
            &self.heads,
            &self.cells,
            o.0,
            name,
        ) {
            Some(spot) => {
                let bucket = bucket_of_name(
                    &self.fixed,
                    &self.made,
                    &self.strings,
                    &self.buckets,
                    o.0,
                    name,
                );
                self.buckets.remove(bucket, spot.place);
                hold(&mut self.cells, spot.place, Held::Deleted(1));
                join_around(&self.heads, &mut self.cells, o.0, spot.position);
                true
            }
            None => false,
        }
    }

    /// Writes a property: an own one takes the value, else a new one is made, last.
    #[inline(always)]
    #[tactic(auto, using(crate::proofs::Flat::length_objects))]
    pub fn set_property(&mut self, o: ObjId, name: Span, v: Value) -> Result<(), Full>
        requires inside { o.0 < length self.old.objects }
        requires name { IsText self.old.strings self.old name }
        ensures { MatchResult result (λ _. FitsCells self.old self.new
            (cells_to_put (place_of_property self.old.strings self.old o.0 name))
            (with_object (with_put (text_of self.old.strings self.old)
            (text_of self.old.strings self.old name) name v) o.0 self.old))
            (λ e. IsFull self.old self.new (cells_used self.old)
            (cells_to_put (place_of_property self.old.strings self.old o.0 name)) self.old.limits.cells
            Cells e) }
    {
        match find(
            &self.fixed,
            &self.made,
            &self.strings,
            &self.buckets,
            &self.heads,
            &self.cells,
            o.0,
            name,
        ) {
            Some(spot) => {
                let held = cell_at(&self.cells, spot.place).held;
                hold_value(&mut self.cells, spot.place, held, v);
            }
            None => {
                if self.cells.len() + self.scopes.len() == self.limits.cells {
                    return Err(Full(Limit::Cells));
                }
                self.add_property(o, name, v);
            }
        }
        Ok(())
    }

    /// Adds a property at the end, where there is room, whatever the object's properties are.
    #[tactic(auto, using(crate::proofs::Flat::length_objects))]
    pub fn add_property(&mut self, o: ObjId, name: Span, v: Value)
        requires inside { o.0 < length self.old.objects }
        requires name { IsText self.old.strings self.old name }
        requires room { cells_used self.old + 1 ≤ self.old.limits.cells }
        ensures { self.new ≡ with_object (with_new_property name v) o.0 self.old }
    {
        let bucket = bucket_of_name(
            &self.fixed,
            &self.made,
            &self.strings,
            &self.buckets,
            o.0,
            name,
        );
        let place = self.cells.len();
        self.buckets.add(bucket, place);
        add_property(&mut self.heads, &mut self.cells, o.0, name, v);
    }

    /// How many elements an object has.
    #[tactic(auto, using(crate::proofs::Flat::length_objects))]
    pub fn length(&self, o: ObjId) -> u32
        requires { o.0 < length self.now.objects }
        ensures { result ≡ length (elements_of self.now.objects o.0) }
    {
        element_count(&self.heads, &self.cells, o.0)
    }

    /// An element.
    #[inline(always)]
    pub fn element(&self, o: ObjId, k: u32) -> Value
        requires { k < length (elements_of self.now.objects o.0) }
        ensures { slice_get (elements_of self.now.objects o.0) k ≡ Some result }
    {
        let place = element_place(&self.heads, &self.cells, o.0, k);
        value_of(cell_at(&self.cells, place).held)
    }

    /// Replaces an element.
    #[inline(always)]
    pub fn set_element(&mut self, o: ObjId, k: u32, v: Value)
        requires { k < length (elements_of self.old.objects o.0) }
        ensures { self.new ≡ with_object (with_element k v) o.0 self.old }
    {
        let place = element_place(&self.heads, &self.cells, o.0, k);
        hold_element(&mut self.cells, place, v);
    }

    /// Adds an element to an array at the end.
    #[tactic(auto, using(crate::proofs::Flat::length_objects))]
    pub fn push_element(&mut self, o: ObjId, v: Value) -> Result<(), Full>
        requires inside { o.0 < length self.old.objects }
        requires array { is_array (object_at self.old.objects o.0).what ≡ true }
        ensures { MatchResult result
            (λ _. FitsCells self.old self.new 1 (with_object (with_new_element v) o.0 self.old))
            (λ e. IsFull self.old self.new (cells_used self.old) 1 self.old.limits.cells Cells e) }
    {
        if self.cells.len() + self.scopes.len() == self.limits.cells {
            return Err(Full(Limit::Cells));
        }
        self.add_element(o, v);
        Ok(())
    }

    /// The name of the property at a position, which counts from 1.
    #[tactic(auto, using(crate::proofs::Flat::length_objects))]
    pub fn name_at(&self, o: ObjId, position: u32) -> Option<Span>
        requires { o.0 < length self.now.objects }
        ensures { result ≡ the_name (at_position (properties_of self.now.objects o.0) position) }
    {
        property_name(held_at_position(&self.heads, &self.cells, o.0, position))
    }

    /// The element, of an array, or else the property's value at a position, which counts from 1.
    pub fn value_at(&self, o: ObjId, position: u32) -> Option<Value>
        requires { o.0 < length self.now.objects }
        ensures { result ≡ walked_value (object_at self.now.objects o.0) position }
    {
        if self.what(o).is_array() {
            return self.element_at(o, position);
        }
        self.property_at(o, position)
    }

    /// The element at a position, which counts from 1.
    fn element_at(&self, o: ObjId, position: u32) -> Option<Value>
        requires { o.0 < length self.now.objects }
        ensures { result ≡ element_at (elements_of self.now.objects o.0) position }
    {
        if position == 0 || self.length(o) < position {
            return None;
        }
        Some(self.element(o, position - 1))
    }

    /// The value of the property at a position, which counts from 1.
    #[tactic(auto, using(crate::proofs::Flat::length_objects))]
    fn property_at(&self, o: ObjId, position: u32) -> Option<Value>
        requires { o.0 < length self.now.objects }
        ensures { result ≡ the_value (at_position (properties_of self.now.objects o.0) position) }
    {
        property_value(held_at_position(&self.heads, &self.cells, o.0, position))
    }

    /// The least filled position above one, or above 0 where that is negative.
    pub fn next_position(&self, o: ObjId, after: i64) -> Option<u32>
        requires { o.0 < length self.now.objects }
        ensures { result ≡ walked_next (object_at self.now.objects o.0) (place_after after) }
    {
        if self.what(o).is_array() {
            return self.next_element(o, after);
        }
        self.next_property(o, after)
    }

    /// The position of the first element above a position.
    fn next_element(&self, o: ObjId, after: i64) -> Option<u32>
        requires { o.0 < length self.now.objects }
        ensures { result ≡ next_element (length (elements_of self.now.objects o.0)) (place_after after) }
    {
        let count = self.length(o);
        if after >= i64::from(count) {
            return None;
        }
        let from = if after < 0 { 0 } else { after as u32 };
        if from < count { Some(from + 1) } else { None }
    }

    /// The position of the first property above a position.
    #[tactic(auto, using(crate::proofs::Flat::length_objects))]
    fn next_property(&self, o: ObjId, after: i64) -> Option<u32>
        requires { o.0 < length self.now.objects }
        ensures { result ≡ next_filled (properties_of self.now.objects o.0) (place_after after) }
    {
        let count = property_count(&self.heads, &self.cells, o.0);
        if after >= i64::from(count) {
            return None;
        }
        let from = if after < 0 { 0 } else { after as u32 };
        next_from(&self.heads, &self.cells, o.0, from)
    }

    /// Tests the room for some objects and cells at once, objects first.
    fn room(&self, objects: u32, cells: u64) -> Result<(), Full>
        ensures { MatchResult result (λ _. HasRoomFor self.now objects cells)
            (λ e. PassesLimit self.now objects cells e.0) }
    {
        if self.limits.objects - self.heads.len() < objects {
            return Err(Full(Limit::Objects));
        }
        if u64::from(self.limits.cells - self.cells.len() - self.scopes.len()) < cells {
            return Err(Full(Limit::Cells));
        }
        Ok(())
    }

    /// Tests the room for a function with so many slots, which keeps some scopes.
    fn room_for_function(&self, slots: u32, scopes: &[ScopeEntry]) -> Result<(), Full>
        ensures { MatchResult result (λ _. HasRoomFor self.now 1 (slots + length scopes.now))
            (λ e. PassesLimit self.now 1 (slots + length scopes.now) e.0) }
    {
        // For the prover: the limit has 32 bits, so a sum that saturates passes it.
        let _limit = self.limits.cells;
        self.room(1, u64::from(slots).saturating_add(scopes.len() as u64))
    }

    /// Tests the room for a class object and its prototype object with so many slots, which keep some scopes and one more.
    fn room_for_class(
        &self,
        prototype_slots: u32,
        class_slots: u32,
        scopes: &[ScopeEntry],
    ) -> Result<(), Full>
        ensures { MatchResult result
            (λ _. HasRoomFor self.now 2 (prototype_slots + class_slots + length scopes.now + 1))
            (λ e. PassesLimit self.now 2 (prototype_slots + class_slots + length scopes.now + 1) e.0) }
    {
        // For the prover: the limit has 32 bits, so a sum that saturates passes it.
        let _limit = self.limits.cells;
        let slots = u64::from(prototype_slots) + u64::from(class_slots) + 1;
        self.room(2, slots.saturating_add(scopes.len() as u64))
    }

    /// Makes an object at the end, where there is room.
    pub fn make_object<S: Starts>(
        &mut self,
        layout: u32,
        delegate: Option<ObjId>,
        what: What,
        starts: &S,
    ) -> ObjId
        requires room { HasRoomFor self.old 1 (length (S.values starts.now)) }
        ensures number { result.0 ≡ length self.old.objects }
        ensures heap { self.new ≡ with_made (S.values starts.now) layout delegate what self.old }
    {
        let o = add_object(&mut self.heads, &self.cells, layout, delegate, stored(what));
        fill_slots(&self.heads, &mut self.cells, o, starts);
        ObjId(o)
    }

    /// Adds nodes for scopes above the saved one, where there is room, and gives the top.
    pub fn keep_scopes(&mut self, saved: Option<ScopeId>, scopes: &[ScopeEntry]) -> Option<ScopeId>
        requires room { HasRoomFor self.old 0 (length scopes.now) }
        ensures top { result ≡ top_of_scopes (length self.old.scopes) saved scopes.now }
        ensures heap { self.new ≡ with_scopes saved scopes.now self.old }
    {
        capture(&mut self.scopes, saved, scopes)
    }

    /// Adds a node for one scope above another, where there is room, and gives it.
    fn keep_above(&mut self, below: Option<ScopeId>, entry: ScopeEntry) -> ScopeId
        requires room { HasRoomFor self.old 0 1 }
        ensures top { result.0 ≡ length self.old.scopes }
        ensures heap { self.new ≡ with_scopes below (entry ∷ []) self.old }
    {
        let at = self.scopes.len();
        self.scopes.push(ScopeNode {
            entry,
            parent: below,
        });
        ScopeId(at)
    }

    /// Names the class object of a class.
    fn name_class(&mut self, class: u32, o: ObjId)
        requires { class < length self.old.classes }
        ensures { self.new ≡ record self.old { classes = set self.old.classes class (Some o) } }
    {
        self.classes[class as usize] = Some(o);
    }

    /// Adds an element to an array at the end, where there is room.
    #[tactic(auto, using(crate::proofs::Flat::length_objects))]
    fn add_element(&mut self, o: ObjId, v: Value)
        requires inside { o.0 < length self.old.objects }
        requires array { is_array (object_at self.old.objects o.0).what ≡ true }
        requires room { cells_used self.old + 1 ≤ self.old.limits.cells }
        ensures { self.new ≡ with_object (with_new_element v) o.0 self.old }
    {
        add_element(&mut self.heads, &mut self.cells, o.0, v);
    }

    /// Adds elements to an array at the end, where there is room.
    fn add_elements(&mut self, o: ObjId, elements: &[Value])
        requires inside { o.0 < length self.old.objects }
        requires array { is_array (object_at self.old.objects o.0).what ≡ true }
        requires room { HasRoomFor self.old 0 (length elements.now) }
        ensures { self.new ≡ with_object (with_more_elements elements.now) o.0 self.old }
    {
        for element in elements {
            self.add_element(o, *element);
        }
    }

    /// Adds elements that are undefined to an array at the end, where there is room.
    fn add_undefined(&mut self, o: ObjId, count: u32)
        requires inside { o.0 < length self.old.objects }
        requires array { is_array (object_at self.old.objects o.0).what ≡ true }
        requires room { HasRoomFor self.old 0 count }
        ensures { self.new ≡ with_object (with_more_elements (replicate count Undefined)) o.0 self.old }
    {
        for _ in 0..count {
            self.add_element(o, Value::Undefined);
        }
    }

    /// Makes an array without elements, where there is room.
    fn make_array(&mut self, layout: u32, delegate: Option<ObjId>) -> ObjId
        requires room { HasRoomFor self.old 1 0 }
        ensures number { result.0 ≡ length self.old.objects }
        ensures heap { self.new ≡ with_array [] layout delegate self.old }
    {
        let o = add_object(
            &mut self.heads,
            &self.cells,
            layout,
            delegate,
            stored(What::Array),
        );
        ObjId(o)
    }

    /// Makes an object with its slots.
    pub fn new_object<S: Starts>(
        &mut self,
        layout: u32,
        delegate: Option<ObjId>,
        what: What,
        starts: &S,
    ) -> Result<ObjId, Full>
        ensures { MatchResult result
            (λ o. IsMade self.old self.new o (S.values starts.now) layout delegate what)
            (λ e. IsFullOf self.old self.new 1 (length (S.values starts.now)) e) }
    {
        let count = starts.count();
        self.room(1, u64::from(count))?;
        Ok(self.make_object(layout, delegate, what, starts))
    }

    /// Makes an unbound function, which keeps scopes above the saved one.
    #[tactic(auto, using(crate::proofs::Steps::used_scopes))]
    pub fn new_function<S: Starts>(
        &mut self,
        layout: u32,
        method: u32,
        home: u32,
        delegate: Option<ObjId>,
        saved: Option<ScopeId>,
        scopes: &[ScopeEntry],
        starts: &S,
    ) -> Result<ObjId, Full>
        ensures { MatchResult result (λ o. IsFunctionMade self.old self.new o (S.values starts.now) layout
            method home delegate saved scopes.now)
            (λ e. IsFullOf self.old self.new 1 (length (S.values starts.now) + length scopes.now) e) }
    {
        self.room_for_function(starts.count(), scopes)?;
        let scope = self.keep_scopes(saved, scopes);
        let what = What::Closure {
            method,
            home,
            scope,
            bound: None,
        };
        Ok(self.make_object(layout, delegate, what, starts))
    }

    /// Makes a class object and its prototype object, which its first slot holds. The class keeps scopes above the saved
    /// one for its static methods, and itself above these for its instances.
    pub fn new_class<P: Starts, C: Starts>(
        &mut self,
        parts: ClassParts,
        saved: Option<ScopeId>,
        scopes: &[ScopeEntry],
        prototype_starts: &P,
        class_starts: &C,
    ) -> Result<ObjId, Full>
        requires class { parts.class < length self.old.classes }
        requires prototype { 0 < length (C.values class_starts.now) }
        ensures { MatchResult result (λ o. IsClassMade self.old self.new o (P.values prototype_starts.now)
            (C.values class_starts.now) parts saved scopes.now) (λ e. IsFullOf self.old self.new 2
            (length (P.values prototype_starts.now) + length (C.values class_starts.now) + length
            scopes.now + 1) e) }
    {
        let _limit = self.limits.objects;
        self.room_for_class(prototype_starts.count(), class_starts.count(), scopes)?;
        let prototype = self.make_object(
            parts.prototype_layout,
            parts.base_prototype,
            What::Plain,
            prototype_starts,
        );
        let statics = self.keep_scopes(saved, scopes);
        let object = ObjId(prototype.0 + 1);
        let own = ScopeEntry {
            object,
            with_flag: false,
        };
        let instances = self.keep_above(statics, own);
        let what = What::ClassObject {
            class: parts.class,
            home: parts.home,
            statics,
            instances,
        };
        let o = self.make_object(parts.class_layout, parts.delegate, what, class_starts);
        self.set_slot(o, 0, Value::Obj(prototype));
        self.name_class(parts.class, o);
        Ok(o)
    }

    /// Makes an array of some values.
    pub fn new_array(
        &mut self,
        layout: u32,
        delegate: Option<ObjId>,
        elements: &[Value],
    ) -> Result<ObjId, Full>
        ensures { MatchResult result (λ o. IsArrayMade self.old self.new o elements.now layout delegate)
            (λ e. IsFullOf self.old self.new 1 (length elements.now) e) }
    {
        self.room(1, elements.len() as u64)?;
        let o = self.make_array(layout, delegate);
        self.add_elements(o, elements);
        Ok(o)
    }

    /// Makes an array of some elements that are undefined.
    pub fn new_undefined(
        &mut self,
        layout: u32,
        delegate: Option<ObjId>,
        count: u32,
    ) -> Result<ObjId, Full>
        ensures { MatchResult result
            (λ o. IsArrayMade self.old self.new o (replicate count Undefined) layout delegate)
            (λ e. IsFullOf self.old self.new 1 count e) }
    {
        self.room(1, u64::from(count))?;
        let o = self.make_array(layout, delegate);
        self.add_undefined(o, count);
        Ok(o)
    }

    /// The class object of a class, where there is one.
    pub fn class_object(&self, class: u32) -> Option<ObjId>
        requires { class < length self.now.classes }
        ensures { result ≡ get_or self.now.classes class None }
    {
        self.classes[class as usize]
    }

    /// The name of a formula of the host, by its position.
    pub fn formula(&self, id: u32) -> &[u8]
        requires { id < length self.now.formulas }
        ensures { result.now ≡ get_or self.now.formulas id [] }
    {
        self.formulas.get(id as usize).as_slice()
    }

    /// How many formulas the host has.
    pub fn formulas(&self) -> usize
        ensures { result ≡ length self.now.formulas }
    {
        self.formulas.len()
    }

    /// Makes a text of two.
    pub fn text_join(&mut self, pool: &Table<Bytes>, a: Span, b: Span) -> Result<Span, Full>
        requires a { IsText pool.now self.old a }
        requires b { IsText pool.now self.old b }
        ensures { MatchResult result
            (λ s. IsTextMade self.old self.new s (text_of pool.now self.old a ++ text_of pool.now self.old b))
            (λ e. IsFull self.old self.new (length self.old.made) (a.len + b.len) self.old.limits.text Text
            e) }
    {
        let start = self.made.len();
        let left = self.limits.text - start;
        if left < a.len {
            return Err(Full(Limit::Text));
        }
        if left - a.len < b.len {
            return Err(Full(Limit::Text));
        }
        join(&self.fixed, &mut self.made, pool, a, b);
        Ok(Span {
            part: 1,
            start,
            len: a.len + b.len,
        })
    }

    /// Makes the text of a digit.
    #[inline(always)]
    fn text_of_digit(&mut self, digit: u8) -> Result<Span, Full>
        requires { digit < 10 }
        ensures { MatchResult result (λ s. IsTextMade self.old self.new s (decimal digit))
            (λ e. IsFull self.old self.new (length self.old.made) (length (decimal digit))
            self.old.limits.text Text e) }
    {
        let start = self.made.len();
        if start == self.limits.text {
            return Err(Full(Limit::Text));
        }
        self.made.push(48 + digit);
        Ok(Span {
            part: 1,
            start,
            len: 1,
        })
    }

    /// Makes the text of a number of any length.
    #[inline(never)]
    fn text_of_digits(&mut self, n: i64) -> Result<Span, Full>
        ensures { MatchResult result (λ s. IsTextMade self.old self.new s (signed_decimal n))
            (λ e. IsFull self.old self.new (length self.old.made) (length (signed_decimal n))
            self.old.limits.text Text e) }
    {
        let mut buffer = Buffer::new();
        let bytes = buffer.format(n).as_bytes();
        let start = self.made.len();
        if ((self.limits.text - start) as usize) < bytes.len() {
            return Err(Full(Limit::Text));
        }
        push_bytes(&mut self.made, bytes);
        Ok(Span {
            part: 1,
            start,
            len: bytes.len() as u32,
        })
    }

    /// Makes the text of a number: most often of one digit.
    #[inline(always)]
    pub fn text_of_number(&mut self, n: i64) -> Result<Span, Full>
        ensures { MatchResult result (λ s. IsTextMade self.old self.new s (signed_decimal n))
            (λ e. IsFull self.old self.new (length self.old.made) (length (signed_decimal n))
            self.old.limits.text Text e) }
    {
        if 0 <= n && n < 10 {
            self.text_of_digit(n as u8)
        } else {
            self.text_of_digits(n)
        }
    }

    /// The bytes of a text.
    pub fn text_bytes<'a>(&'a self, pool: &'a Table<Bytes>, s: Span) -> &'a [u8]
        requires { IsText pool.now self.now s }
        ensures { result.now ≡ text_of pool.now self.now s }
    {
        bytes_in(self.fixed.as_slice(), self.made.as_slice(), pool, s)
    }

    /// A captured scope.
    pub fn scope(&self, s: ScopeId) -> ScopeNode
        requires { s.0 < length self.now.scopes }
        ensures { slice_get self.now.scopes s.0 ≡ Some result }
    {
        self.scopes.get(s.0)
    }

    /// Takes the room of a frame, which keeps some values.
    pub fn take_frame(&mut self, values: u32) -> Result<(), Full>
        ensures { MatchResult result (λ _. (self.old.frames + 1 ≤ self.old.limits.frames)
            × (self.old.stack + values ≤ self.old.limits.stack)
            × (self.new
            ≡ record self.old { frames = self.old.frames + 1; stack = self.old.stack + values }))
            (λ e. (self.new ≡ self.old) × PassesFrames self.old values e.0) }
    {
        if self.frames >= self.limits.frames {
            return Err(Full(Limit::Frames));
        }
        if u64::from(self.stack) + u64::from(values) > u64::from(self.limits.stack) {
            return Err(Full(Limit::Stack));
        }
        self.frames += 1;
        self.stack += values;
        Ok(())
    }

    /// Gives back the room of a frame, which kept some values.
    pub fn give_frame(&mut self, values: u32)
        requires frame { 0 < self.old.frames }
        requires values { values ≤ self.old.stack }
        ensures { self.new
            ≡ record self.old { frames = self.old.frames - 1; stack = self.old.stack - values } }
    {
        self.frames -= 1;
        self.stack -= values;
    }
}
