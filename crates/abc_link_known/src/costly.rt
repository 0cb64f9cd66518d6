use abc_base::{NoMemory, Table};
use abc_base_graphs::groups_of;
use abc_link_names::{Names, PlainName, Spaces, plain_name_at, set_at};
use indexmap::IndexMap;
use std::alloc::Global;

/// A name that costs no more is looked up as it stands: so many classes of its text, times the namespaces that it has.
const MUCH: usize = 64;

/// What is the same of two names that stand for the same.
#[derive(Clone, Copy, PartialEq, Eq, Hash)]
struct Alike {
    /// The number of the text.
    text: u32,
    /// The one namespace, or 0.
    space: u32,
    /// The set, or 0.
    set: u32,
}

/// How what a name stands for is found. It is a hint: any of them would do.
#[derive(Clone, Copy)]
pub(crate) enum Way {
    /// As it stands.
    Alone,
    /// With all names of a set.
    WithSet(u32),
    /// With all names of a text, by the text's number.
    WithText(u32),
    /// As another name.
    Like(u32),
}

/// No set and no text has this number.
const NONE: u32 = u32::MAX;

impl Way {
    /// The set by which a name is gone over.
    pub fn set(self) -> u32 {
        match self {
            Way::WithSet(set) => set,
            _ => NONE,
        }
    }

    /// The text by which a name is gone over.
    pub fn text(self) -> u32 {
        match self {
            Way::WithText(text) => text,
            _ => NONE,
        }
    }
}

/// How many numbers there are from 0 on, where so many things count from 1. Of 2^32 there is never room for all.
pub(crate) fn one_more(count: usize) -> Result<u32, NoMemory> {
    if count >= u32::MAX as usize {
        return Err(NoMemory);
    }
    Ok(count as u32 + 1)
}

/// The places of each key. Of 2^32 keys or more there is never room for all.
pub(crate) fn grouped(alloc: Global, keys: &[u32]) -> Result<IndexMap<u32, Table<u32>>, NoMemory> {
    if keys.len() > u32::MAX as usize {
        return Err(NoMemory);
    }
    groups_of(alloc, keys)
}

/// How many namespaces a name has.
fn space_count(names: &Names<'_>, spaces: Spaces) -> usize {
    match spaces {
        Spaces::Every | Spaces::One(_) => 1,
        Spaces::Set(set) => set_at(names.abc, set).len(),
    }
}

fn likeness(text: u32, spaces: Spaces) -> Alike {
    match spaces {
        Spaces::Every => Alike {
            text,
            space: 0,
            set: 0,
        },
        Spaces::One(space) => Alike {
            text,
            space,
            set: 0,
        },
        Spaces::Set(set) => Alike {
            text,
            space: 0,
            set,
        },
    }
}

/// How a name is gone over that costs much: over the classes of its text, where they are no more than its namespaces.
fn way_of(text: u32, spaces: Spaces, more_classes: bool) -> Way {
    match spaces {
        Spaces::Set(set) if !more_classes => Way::WithSet(set),
        _ => Way::WithText(text),
    }
}

/// How a name is gone over, where those that were seen before it are known.
fn choose_way(
    names: &Names<'_>,
    seen: &mut IndexMap<Alike, u32>,
    name: u32,
    plain: PlainName,
) -> Result<Way, NoMemory> {
    let text = names.number(plain.string);
    let classes = names.classes_of(text).len();
    let spaces = space_count(names, plain.spaces);
    if classes.max(1).saturating_mul(spaces) <= MUCH {
        return Ok(Way::Alone);
    }
    let alike = likeness(text, plain.spaces);
    if let Some(first) = seen.get(&alike).copied() {
        return Ok(Way::Like(first));
    }
    seen.insert(alike, name)?;
    Ok(way_of(text, plain.spaces, classes > spaces))
}

/// How each name of the pool is gone over, from index 0 on.
pub(crate) fn ways_of(
    alloc: Global,
    names: &Names<'_>,
    count: u32,
) -> Result<Table<Way>, NoMemory> {
    let mut ways = Table::new(alloc);
    let mut seen = IndexMap::new(alloc);
    for name in 0..count {
        let way = match plain_name_at(names.abc, name) {
            Some(plain) => choose_way(names, &mut seen, name, plain)?,
            None => Way::Alone,
        };
        ways.push(way)?;
    }
    Ok(ways)
}

/// How many namespaces the longest set has.
fn longest_set(names: &Names<'_>) -> usize {
    let mut most = 1;
    for set in names.abc.sets.as_slice() {
        most = set.len().max(most);
    }
    most
}

/// Whether a name may cost much.
pub(crate) fn may_cost_much(names: &Names<'_>) -> bool {
    let classes = names.tables.most_of_one_text().max(1);
    longest_set(names).saturating_mul(classes) > MUCH
}
