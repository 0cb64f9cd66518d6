ghost use Rattle.std.specs.Prelude.{◌≡◌, ◌<◌, ◌^◌, None, Some, length, OnOk};
ghost use Rattle.abc_base_graphs.specs.Index.{first};
ghost use Rattle.abc_link_names.specs.Meaning.{is_class_named, meaning_of_name, resolve};
ghost use Rattle.abc_link_names.specs.Meanings.{AreKnown};
ghost use Rattle.abc_link_names.specs.Numbers.{classes_of, number_of_text};
ghost use Rattle.abc_link_names.specs.Pool.{name as name_of, plain_name};
ghost use Rattle.abc_link_names.specs.declared.named.Spaces.TheVariants as forms;
ghost use Rattle.abc_link_known.specs.Slates.{HasFirstClasses, IsSpaceList, earlier_place as earlier_of, has_spot, has_spot_among, item_at};

use crate::costly::{Way, grouped, one_more};
use crate::finder::Finder;
use crate::known::note;
use abc_base::{NoMemory, Table};
use abc_base_graphs::Slate;
use abc_link_names::{Known, Named, PlainName, Spaces, plain_name_at, set_at};
use indexmap::IndexMap;
use std::alloc::Global;

/// The earlier of two places.
fn earlier(a: Option<u32>, b: Option<u32>) -> Option<u32>
    ensures { result ≡ earlier_of a b }
{
    match (a, b) {
        (Some(a), Some(b)) => Some(a.min(b)),
        (Some(a), None) => Some(a),
        (None, b) => b,
    }
}

/// A class by its place among some.
fn class_at(classes: &[u32], place: Option<u32>) -> Option<u32>
    ensures { result ≡ item_at classes.now place }
{
    match place {
        Some(place) => classes.get(place as usize).copied(),
        None => None,
    }
}

/// The names that are gone over by each text.
fn names_by_text(alloc: Global, ways: &Table<Way>) -> Result<IndexMap<u32, Table<u32>>, NoMemory> {
    let mut texts = Vec::new(alloc);
    for way in ways.as_slice() {
        texts.push(way.text())?;
    }
    grouped(alloc, texts.as_slice())
}

impl Finder<'_> {
    /// Writes at the spot of each of some classes where the first of them stands that has it, and nothing else.
    fn write_firsts(&self, slate: &mut Slate, classes: &[u32]) -> Result<(), NoMemory>
        requires { length classes.now < 2 ^ 32 }
        ensures firsts { OnOk result
            (HasFirstClasses self.now.names.abc.now self.now.names.tables.now.numbers slate.new classes.now) }
        ensures len { OnOk result (length slate.new ≡ length slate.old) }
    {
        slate.wipe()?;
        for i in (0..classes.len()).rev() {
            slate.write(self.spot_of_class(classes[i]), i as u32);
        }
        Ok(())
    }

    /// Where the first of some classes stands that has the spot of a namespace.
    fn place_of(&self, slate: &Slate, classes: &[u32], space: u32) -> Option<u32>
        requires firsts { HasFirstClasses self.now.names.abc.now self.now.names.tables.now.numbers slate.now
            classes.now }
        requires places { length slate.now ≡ length self.now.names.abc.now.instances }
        ensures { result
            ≡ first (has_spot self.now.names.abc.now self.now.names.tables.now.numbers space) classes.now }
    {
        let _classes = classes;
        match self.spot_of_space(space) {
            Some(spot) => slate.at(spot),
            None => None,
        }
    }

    /// Where the first of some classes stands that has the spot of one of several namespaces.
    fn first_place(&self, slate: &Slate, classes: &[u32], spaces: &[u32]) -> Option<u32>
        requires firsts { HasFirstClasses self.now.names.abc.now self.now.names.tables.now.numbers slate.now
            classes.now }
        requires places { length slate.now ≡ length self.now.names.abc.now.instances }
        ensures { result
            ≡ first (has_spot_among self.now.names.abc.now self.now.names.tables.now.numbers spaces.now)
            classes.now }
    {
        let mut first = None;
        for space in spaces {
            first = earlier(first, self.place_of(slate, classes, *space));
        }
        first
    }

    /// The first class that a name names, by the classes of its text and its namespaces.
    fn class_among(
        &self,
        slate: &Slate,
        classes: &[u32],
        name: PlainName,
        spaces: &[u32],
    ) -> Option<u32>
        requires firsts { HasFirstClasses self.now.names.abc.now self.now.names.tables.now.numbers slate.now
            classes.now }
        requires places { length slate.now ≡ length self.now.names.abc.now.instances }
        requires classes { classes.now
            ≡ classes_of self.now.names.abc.now self.now.names.tables.now.numbers
            (number_of_text self.now.names.tables.now.numbers name.string) }
        requires spaces { IsSpaceList self.now.names.abc.now name.spaces spaces.now }
        ensures { result
            ≡ first (is_class_named self.now.names.abc.now name) self.now.names.abc.now.instances }
    {
        class_at(classes, self.first_place(slate, classes, spaces))
    }

    /// What a name stands for, by the classes of its text and its namespaces.
    fn meaning_among(
        &self,
        slate: &Slate,
        classes: &[u32],
        name: PlainName,
        spaces: &[u32],
    ) -> Option<Named>
        requires firsts { HasFirstClasses self.now.names.abc.now self.now.names.tables.now.numbers slate.now
            classes.now }
        requires places { length slate.now ≡ length self.now.names.abc.now.instances }
        requires classes { classes.now
            ≡ classes_of self.now.names.abc.now self.now.names.tables.now.numbers
            (number_of_text self.now.names.tables.now.numbers name.string) }
        requires spaces { IsSpaceList self.now.names.abc.now name.spaces spaces.now }
        ensures { result ≡ meaning_of_name self.now.names.abc.now (Some name) }
    {
        match self.class_among(slate, classes, name, spaces) {
            Some(class) => Some(Named::Class(class)),
            None => self
                .names
                .host_class(name, self.names.holds_public(name.spaces)),
        }
    }

    /// What a name with one namespace stands for, by the classes of its text.
    fn meaning_of_one(
        &self,
        slate: &Slate,
        classes: &[u32],
        name: PlainName,
        space: u32,
    ) -> Option<Named>
        requires firsts { HasFirstClasses self.now.names.abc.now self.now.names.tables.now.numbers slate.now
            classes.now }
        requires places { length slate.now ≡ length self.now.names.abc.now.instances }
        requires classes { classes.now
            ≡ classes_of self.now.names.abc.now self.now.names.tables.now.numbers
            (number_of_text self.now.names.tables.now.numbers name.string) }
        requires spaces { name.spaces ≡ forms.One space }
        ensures { result ≡ meaning_of_name self.now.names.abc.now (Some name) }
    {
        let spaces = [space];
        self.meaning_among(slate, classes, name, spaces.as_slice())
    }

    /// What a name with a set stands for, by the classes of its text.
    fn meaning_of_set(
        &self,
        slate: &Slate,
        classes: &[u32],
        name: PlainName,
        set: u32,
    ) -> Option<Named>
        requires firsts { HasFirstClasses self.now.names.abc.now self.now.names.tables.now.numbers slate.now
            classes.now }
        requires places { length slate.now ≡ length self.now.names.abc.now.instances }
        requires classes { classes.now
            ≡ classes_of self.now.names.abc.now self.now.names.tables.now.numbers
            (number_of_text self.now.names.tables.now.numbers name.string) }
        requires spaces { name.spaces ≡ forms.Set set }
        ensures { result ≡ meaning_of_name self.now.names.abc.now (Some name) }
    {
        self.meaning_among(slate, classes, name, set_at(self.names.abc, set))
    }

    /// What a name stands for, by the classes of its text.
    fn meaning_in_text(
        &self,
        slate: &Slate,
        classes: &[u32],
        name: u32,
        plain: PlainName,
    ) -> Option<Named>
        requires firsts { HasFirstClasses self.now.names.abc.now self.now.names.tables.now.numbers slate.now
            classes.now }
        requires places { length slate.now ≡ length self.now.names.abc.now.instances }
        requires classes { classes.now
            ≡ classes_of self.now.names.abc.now self.now.names.tables.now.numbers
            (number_of_text self.now.names.tables.now.numbers plain.string) }
        requires plain { plain_name (name_of self.now.names.abc.now name) ≡ Some plain }
        ensures { result ≡ resolve self.now.names.abc.now name }
    {
        match plain.spaces {
            Spaces::Every => self.names.resolve(name),
            Spaces::One(space) => self.meaning_of_one(slate, classes, plain, space),
            Spaces::Set(set) => self.meaning_of_set(slate, classes, plain, set),
        }
    }

    /// Notes what a name stands for, if it has the text of a number, of whose classes the first stand at their spots.
    fn tell_in_text(
        &self,
        slate: &Slate,
        text: u32,
        classes: &[u32],
        name: u32,
        known: &mut Table<Option<Known>>,
    )
        requires firsts { HasFirstClasses self.now.names.abc.now self.now.names.tables.now.numbers slate.now
            classes.now }
        requires places { length slate.now ≡ length self.now.names.abc.now.instances }
        requires classes { classes.now
            ≡ classes_of self.now.names.abc.now self.now.names.tables.now.numbers text }
        requires known { AreKnown self.now.names.abc.now known.old }
        ensures { AreKnown self.now.names.abc.now known.new }
    {
        let Some(plain) = plain_name_at(self.names.abc, name) else {
            return;
        };
        if self.names.number(plain.string) != text {
            return;
        }
        let named = self.meaning_in_text(slate, classes, name, plain);
        note(self.names.abc, known, name, named);
    }

    /// Notes what some names stand for that have one text.
    fn tell_text(
        &self,
        slate: &mut Slate,
        text: u32,
        names: &Table<u32>,
        known: &mut Table<Option<Known>>,
    ) -> Result<(), NoMemory>
        requires places { length slate.old ≡ length self.now.names.abc.now.instances }
        requires known { AreKnown self.now.names.abc.now known.old }
        ensures places { OnOk result (length slate.new ≡ length slate.old) }
        ensures known { OnOk result (AreKnown self.now.names.abc.now known.new) }
    {
        let classes = self.names.classes_of(text);
        if classes.len() > u32::MAX as usize {
            return Err(NoMemory);
        }
        self.write_firsts(slate, classes)?;
        for name in names.as_slice() {
            self.tell_in_text(slate, text, classes, *name, known);
        }
        Ok(())
    }

    /// Notes what the names of a text stand for, if there are any.
    fn tell_any_text(
        &self,
        slate: &mut Slate,
        names: &IndexMap<u32, Table<u32>>,
        text: u32,
        known: &mut Table<Option<Known>>,
    ) -> Result<(), NoMemory>
        requires places { length slate.old ≡ length self.now.names.abc.now.instances }
        requires known { AreKnown self.now.names.abc.now known.old }
        ensures places { OnOk result (length slate.new ≡ length slate.old) }
        ensures known { OnOk result (AreKnown self.now.names.abc.now known.new) }
    {
        match names.get(&text) {
            Some(names) => self.tell_text(slate, text, names, known),
            None => Ok(()),
        }
    }

    /// Notes what names stand for, for each of so many numbers of texts.
    fn tell_texts(
        &self,
        slate: &mut Slate,
        names: &IndexMap<u32, Table<u32>>,
        count: u32,
        known: &mut Table<Option<Known>>,
    ) -> Result<(), NoMemory>
        requires places { length slate.old ≡ length self.now.names.abc.now.instances }
        requires known { AreKnown self.now.names.abc.now known.old }
        ensures { OnOk result (AreKnown self.now.names.abc.now known.new) }
    {
        for text in 0..count {
            self.tell_any_text(slate, names, text, known)?;
        }
        Ok(())
    }

    /// Notes what names stand for whose texts many classes have, text by text.
    pub fn tell_by_texts(
        &self,
        alloc: Global,
        slate: &mut Slate,
        ways: &Table<Way>,
        known: &mut Table<Option<Known>>,
    ) -> Result<(), NoMemory>
        requires places { length slate.old ≡ length self.now.names.abc.now.instances }
        requires known { AreKnown self.now.names.abc.now known.old }
        ensures { OnOk result (AreKnown self.now.names.abc.now known.new) }
    {
        let names = names_by_text(alloc, ways)?;
        let count = one_more(self.names.abc.strings.len())?;
        self.tell_texts(slate, &names, count, known)
    }
}
