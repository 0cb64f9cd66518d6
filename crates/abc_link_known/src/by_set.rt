ghost use Rattle.std.specs.Prelude.{◌≡◌, None, Some, true, find, get_or, is_some, length, OnOk};
ghost use Rattle.abc_base_graphs.specs.Index.{first};
ghost use Rattle.abc_link_names.specs.Meaning.{holds_public, is_class_named, meaning_of_name};
ghost use Rattle.abc_link_names.specs.Meanings.{AreKnown};
ghost use Rattle.abc_link_names.specs.Pool.{set as set_of};
ghost use Rattle.abc_link_names.specs.declared.named.Spaces.TheVariants as forms;
ghost use Rattle.abc_link_known.specs.Slates.{AreSpotsMarked, mark_spot};
ghost use Rattle.abc_link_known.specs.Spots.{spot_of_class};

use crate::costly::{Way, grouped, one_more};
use crate::finder::Finder;
use crate::known::note;
use abc_base::{NoMemory, Table};
use abc_base_graphs::Slate;
use abc_link_names::{Known, Named, PlainName, Spaces, plain_name_at, set_at};
use indexmap::IndexMap;
use std::alloc::Global;

/// Marks a spot, if there is one.
fn mark(slate: &mut Slate, spot: Option<u32>)
    ensures { slate.new ≡ mark_spot slate.old spot }
{
    if let Some(spot) = spot {
        slate.write(spot, 0);
    }
}

/// Whether a name has just the namespaces of a set.
fn has_set(name: PlainName, set: u32) -> bool
    ensures { result ≡ true → name.spaces ≡ forms.Set set }
{
    match name.spaces {
        Spaces::Set(its) => its == set,
        Spaces::Every | Spaces::One(_) => false,
    }
}

/// The names that are gone over by each set.
fn names_by_set(alloc: Global, ways: &Table<Way>) -> Result<IndexMap<u32, Table<u32>>, NoMemory> {
    let mut sets = Vec::new(alloc);
    for way in ways.as_slice() {
        sets.push(way.set())?;
    }
    grouped(alloc, sets.as_slice())
}

impl Finder<'_> {
    /// Marks the spots of some namespaces on a slate, and no others.
    fn mark_spots(&self, slate: &mut Slate, spaces: &[u32]) -> Result<(), NoMemory>
        ensures marked { OnOk result
            (AreSpotsMarked self.now.names.abc.now self.now.names.tables.now.numbers slate.new spaces.now) }
        ensures len { OnOk result (length slate.new ≡ length slate.old) }
    {
        slate.wipe()?;
        for space in spaces {
            mark(slate, self.spot_of_space(*space));
        }
        Ok(())
    }

    /// Whether the spot of a class is marked.
    fn is_marked(&self, slate: &Slate, class: u32) -> bool
        ensures { result
            ≡ is_some (get_or slate.now
            (spot_of_class self.now.names.abc.now self.now.names.tables.now.numbers class) None) }
    {
        slate.at(self.spot_of_class(class)).is_some()
    }

    /// The first of some classes whose spots are marked.
    fn first_marked(&self, slate: &Slate, classes: &[u32]) -> Option<u32>
        ensures { result
            ≡ find (λ c. is_some (get_or slate.now
            (spot_of_class self.now.names.abc.now self.now.names.tables.now.numbers c) None))
            classes.now }
    {
        for class in classes {
            if self.is_marked(slate, *class) {
                return Some(*class);
            }
        }
        None
    }

    /// The first class that a name with a set names, where the spots of the set are marked.
    fn class_in_set(&self, slate: &Slate, name: PlainName, set: u32) -> Option<u32>
        requires marked { AreSpotsMarked self.now.names.abc.now self.now.names.tables.now.numbers slate.now
            (set_of self.now.names.abc.now set) }
        requires places { length slate.now ≡ length self.now.names.abc.now.instances }
        requires spaces { name.spaces ≡ forms.Set set }
        ensures { result
            ≡ first (is_class_named self.now.names.abc.now name) self.now.names.abc.now.instances }
    {
        self.first_marked(slate, self.names.classes_of(self.names.number(name.string)))
    }

    /// What a name with a set stands for, where the spots of the set are marked and it is known whether the public namespace is
    /// one of the set.
    fn meaning_in_set(
        &self,
        slate: &Slate,
        name: PlainName,
        set: u32,
        public: bool,
    ) -> Option<Named>
        requires marked { AreSpotsMarked self.now.names.abc.now self.now.names.tables.now.numbers slate.now
            (set_of self.now.names.abc.now set) }
        requires places { length slate.now ≡ length self.now.names.abc.now.instances }
        requires spaces { name.spaces ≡ forms.Set set }
        requires public { public ≡ holds_public self.now.names.abc.now (forms.Set set) }
        ensures { result ≡ meaning_of_name self.now.names.abc.now (Some name) }
    {
        match self.class_in_set(slate, name, set) {
            Some(class) => Some(Named::Class(class)),
            None => self.names.host_class(name, public),
        }
    }

    /// Notes what a name stands for, if it has the set whose spots are marked.
    fn tell_in_set(
        &self,
        slate: &Slate,
        set: u32,
        public: bool,
        name: u32,
        known: &mut Table<Option<Known>>,
    )
        requires marked { AreSpotsMarked self.now.names.abc.now self.now.names.tables.now.numbers slate.now
            (set_of self.now.names.abc.now set) }
        requires places { length slate.now ≡ length self.now.names.abc.now.instances }
        requires public { public ≡ holds_public self.now.names.abc.now (forms.Set set) }
        requires known { AreKnown self.now.names.abc.now known.old }
        ensures { AreKnown self.now.names.abc.now known.new }
    {
        let Some(plain) = plain_name_at(self.names.abc, name) else {
            return;
        };
        if !has_set(plain, set) {
            return;
        }
        let named = self.meaning_in_set(slate, plain, set, public);
        note(self.names.abc, known, name, named);
    }

    /// Notes what some names stand for that have one set.
    fn tell_set(
        &self,
        slate: &mut Slate,
        set: u32,
        names: &Table<u32>,
        known: &mut Table<Option<Known>>,
    ) -> Result<(), NoMemory>
        requires places { length slate.old ≡ length self.now.names.abc.now.instances }
        requires known { AreKnown self.now.names.abc.now known.old }
        ensures places { OnOk result (length slate.new ≡ length slate.old) }
        ensures known { OnOk result (AreKnown self.now.names.abc.now known.new) }
    {
        self.mark_spots(slate, set_at(self.names.abc, set))?;
        let public = self.names.holds_public(Spaces::Set(set));
        for name in names.as_slice() {
            self.tell_in_set(slate, set, public, *name, known);
        }
        Ok(())
    }

    /// Notes what the names of a set stand for, if there are any.
    fn tell_any_set(
        &self,
        slate: &mut Slate,
        names: &IndexMap<u32, Table<u32>>,
        set: u32,
        known: &mut Table<Option<Known>>,
    ) -> Result<(), NoMemory>
        requires places { length slate.old ≡ length self.now.names.abc.now.instances }
        requires known { AreKnown self.now.names.abc.now known.old }
        ensures places { OnOk result (length slate.new ≡ length slate.old) }
        ensures known { OnOk result (AreKnown self.now.names.abc.now known.new) }
    {
        match names.get(&set) {
            Some(names) => self.tell_set(slate, set, names, known),
            None => Ok(()),
        }
    }

    /// Notes what names stand for, for each of so many sets.
    fn tell_sets(
        &self,
        slate: &mut Slate,
        names: &IndexMap<u32, Table<u32>>,
        count: u32,
        known: &mut Table<Option<Known>>,
    ) -> Result<(), NoMemory>
        requires places { length slate.old ≡ length self.now.names.abc.now.instances }
        requires known { AreKnown self.now.names.abc.now known.old }
        ensures places { OnOk result (length slate.new ≡ length slate.old) }
        ensures known { OnOk result (AreKnown self.now.names.abc.now known.new) }
    {
        for set in 0..count {
            self.tell_any_set(slate, names, set, known)?;
        }
        Ok(())
    }

    /// Notes what names stand for that have long sets, set by set.
    pub fn tell_by_sets(
        &self,
        alloc: Global,
        slate: &mut Slate,
        ways: &Table<Way>,
        known: &mut Table<Option<Known>>,
    ) -> Result<(), NoMemory>
        requires places { length slate.old ≡ length self.now.names.abc.now.instances }
        requires known { AreKnown self.now.names.abc.now known.old }
        ensures places { OnOk result (length slate.new ≡ length slate.old) }
        ensures known { OnOk result (AreKnown self.now.names.abc.now known.new) }
    {
        let names = names_by_set(alloc, ways)?;
        let count = one_more(self.names.abc.sets.len())?;
        self.tell_sets(slate, &names, count, known)
    }
}
