ghost use Rattle.std.specs.Prelude.{◌≡◌, ◌<◌, ◌^◌, ℕ, false, get_or, length, map, nat_eq, not, IfOk};
ghost use Rattle.abc_base_graphs.specs.Index.{first};
ghost use Rattle.abc_link_names.specs.Keys.{keys_eq};
ghost use Rattle.indexmap.specs.IndexMap.{get};
ghost use Rattle.abc_link_rules.specs.Repeats.{clashes_at as clash_at, clashes_with as clash_with, is_elsewhere as stands_elsewhere, keys_clash, no_sided, opposite as are_opposite, side_of as side_in, sided_eq, sided_key as sided_of};
ghost use Rattle.abc_link_rules.specs.Clashes.{TellsSides, is_clash_of};
ghost use Rattle.abc_link_names.specs.ItemTypes.{any_pair, any_table, names_clash};
ghost use Rattle.abc_link_names.specs.declared.items.LinkRule.TheVariants as rules;
ghost use Rattle.abc_link_names.specs.declared.keys.NameKey.{NameKey as AnyNameKey};
ghost use Rattle.abc_link_rules.specs.declared.same_name.SidedKey.{SidedKey as AnySidedKey};

use abc_base::NoMemory;
use abc_base_graphs::index_of;
use abc_file_types::{Abc, TraitBody, TraitInfo};
use abc_link_names::{
    Clash, FEW, Item, LinkRule, NameKey, Names, Rule, any_pair_of, first_places, instance_table,
    own_table, qname_at,
};
use indexmap::IndexMap;
use std::alloc::Global;

/// No two traits of one table have equal names, but for a Getter and a Setter.
#[derive(Clone, Copy)]
pub(crate) struct SameName<'a> {
    pub names: Names<'a>,
}

/// The key of a trait's name, and what the trait is of the name: 1 a Getter, 2 a Setter, 0 all else.
#[derive(Clone, Copy, Debug, PartialEq, Eq, Hash)]
pub(crate) struct SidedKey {
    pub name: NameKey,
    pub side: u32,
}

fn side_of(body: TraitBody) -> u32
    ensures { result ≡ side_in body }
{
    match body {
        TraitBody::Getter { .. } => 1,
        TraitBody::Setter { .. } => 2,
        _ => 0,
    }
}

/// Whether one is a Getter and the other a Setter.
fn opposite(a: u32, b: u32) -> bool
    ensures { result ≡ are_opposite a b }
{
    a == 1 && b == 2 || a == 2 && b == 1
}

/// Two names clash where they are equal, and not those of a Getter and a Setter.
struct NamesClash;

impl Clash for NamesClash {
    ghost use Rattle.abc_link_rules.specs.Repeats.{keys_clash};

    type Value = SidedKey;

    ghost clash = { λ _. keys_clash };

    fn do_clash(&self, first: &SidedKey, later: &SidedKey) -> bool {
        first.name == later.name && !opposite(first.side, later.side)
    }
}

/// The keys of the names of a table, with their sides.
fn sided_keys(
    alloc: Global,
    names: &Names<'_>,
    table: &[TraitInfo],
) -> Result<Vec<SidedKey>, NoMemory>
    ensures { IfOk result
        (λ keys. keys.items ≡ map (sided_of names.now.abc.now names.now.tables.now.numbers) table.now) }
{
    let mut keys = Vec::with_capacity(alloc, table.len())?;
    for info in table {
        let name = names.key(qname_at(names.abc, info.name));
        keys.push(SidedKey {
            name,
            side: side_of(info.body),
        })?;
    }
    Ok(keys)
}

/// The keys of the names alone.
fn names_in(alloc: Global, keys: &[SidedKey]) -> Result<Vec<NameKey>, NoMemory>
    ensures { IfOk result (λ names. names.items ≡ map (λ k. k.name) keys.now) }
{
    let mut names = Vec::with_capacity(alloc, keys.len())?;
    for key in keys {
        names.push(key.name)?;
    }
    Ok(names)
}

/// Whether a key is that of a Getter or a Setter.
fn has_side(keys: &[SidedKey], place: u32) -> bool
    ensures { result ≡ not (nat_eq (get_or keys.now place no_sided).side 0) }
{
    side_at(keys, place) != 0
}

/// Whether some key is.
fn has_sides(keys: &[SidedKey]) -> bool
    requires { length keys.now < 2 ^ 32 }
    ensures { result ≡ false → (i : ℕ) → i < length keys.now → (get_or keys.now i no_sided).side ≡ 0 }
{
    for i in 0..keys.len() as u32 {
        if has_side(keys, i) {
            return true;
        }
    }
    false
}

/// The first place of each key.
fn first_sided(alloc: Global, keys: &[SidedKey]) -> Result<IndexMap<SidedKey, u32>, NoMemory>
    requires { length keys.now < 2 ^ 32 }
    ensures { IfOk result (λ m. (k : AnySidedKey) → get sided_eq m k ≡ first (sided_eq k) keys.now) }
{
    index_of(alloc, keys)
}

/// The first place of each key, where there are Getters or Setters: among others the names alone tell which clash.
fn sides_told(alloc: Global, keys: &[SidedKey]) -> Result<IndexMap<SidedKey, u32>, NoMemory>
    requires { length keys.now < 2 ^ 32 }
    ensures { IfOk result (λ m. TellsSides keys.now m) }
{
    if has_sides(keys) {
        first_sided(alloc, keys)
    } else {
        Ok(IndexMap::new(alloc))
    }
}

/// Whether the first key of a name stands elsewhere, and is not of the other side.
fn clashes_with(keys: &[SidedKey], first: Option<u32>, place: u32) -> bool
    requires place { place < length keys.now }
    ensures { result ≡ clash_with keys.now first place }
{
    match first {
        Some(first) => first != place && !opposite(side_at(keys, first), side_at(keys, place)),
        None => false,
    }
}

/// The side of a key.
fn side_at(keys: &[SidedKey], place: u32) -> u32
    ensures { result ≡ (get_or keys.now place no_sided).side }
{
    match keys.get(place as usize) {
        Some(key) => key.side,
        None => 0,
    }
}

fn is_elsewhere(first: Option<u32>, place: u32) -> bool
    ensures { result ≡ stands_elsewhere first place }
{
    match first {
        Some(first) => first != place,
        None => false,
    }
}

/// Whether the first of a name, or of a name and a side, tells a clash.
fn clashes_at(keys: &[SidedKey], first: Option<u32>, same: Option<u32>, place: u32) -> bool
    requires place { place < length keys.now }
    ensures { result ≡ clash_at keys.now first same place }
{
    clashes_with(keys, first, place) || is_elsewhere(same, place)
}

fn key_at(keys: &[SidedKey], place: u32) -> SidedKey
    requires { place < length keys.now }
    ensures { result ≡ get_or keys.now place no_sided }
{
    keys[place as usize]
}

fn first_of(firsts: &IndexMap<NameKey, u32>, key: NameKey) -> Option<u32>
    ensures { result ≡ get keys_eq firsts.now key }
{
    firsts.get(&key).copied()
}

fn first_of_side(sided: &IndexMap<SidedKey, u32>, key: SidedKey) -> Option<u32>
    ensures { result ≡ get sided_eq sided.now key }
{
    sided.get(&key).copied()
}

/// Whether a key tells a clash, by the first places of all.
fn is_clash(
    keys: &[SidedKey],
    firsts: &IndexMap<NameKey, u32>,
    sided: &IndexMap<SidedKey, u32>,
    place: u32,
) -> bool
    requires { place < length keys.now }
    ensures { result ≡ is_clash_of keys.now firsts.now sided.now place }
{
    let key = key_at(keys, place);
    let first = first_of(firsts, key.name);
    let same = first_of_side(sided, key);
    clashes_at(keys, first, same, place)
}

/// Whether two of some names clash, by the first places of all.
fn any_clash_in(
    keys: &[SidedKey],
    firsts: &IndexMap<NameKey, u32>,
    sided: &IndexMap<SidedKey, u32>,
) -> bool
    requires few { length keys.now < 2 ^ 32 }
    requires names { (k : AnyNameKey)
        → get keys_eq firsts.now k ≡ first (keys_eq k) (map (λ s. s.name) keys.now) }
    requires sides { TellsSides keys.now sided.now }
    ensures { result ≡ any_pair keys_clash keys.now }
{
    for i in 0..keys.len() as u32 {
        if is_clash(keys, firsts, sided, i) {
            return true;
        }
    }
    false
}

/// Whether two of many names clash.
#[tactic(auto, using(crate::proofs::SidedRepeats::at_names))]
fn any_clash_of_many(alloc: Global, keys: &[SidedKey]) -> Result<bool, NoMemory>
    ensures { IfOk result (λ b. b ≡ any_pair keys_clash keys.now) }
{
    if keys.len() > u32::MAX as usize {
        return Err(NoMemory);
    }
    let names = names_in(alloc, keys)?;
    let firsts = first_places(alloc, names.as_slice())?;
    let sided = sides_told(alloc, keys)?;
    Ok(any_clash_in(keys, &firsts, &sided))
}

/// Whether two of some names clash. Of few each pair is looked at.
fn any_clash(alloc: Global, keys: &[SidedKey]) -> Result<bool, NoMemory>
    ensures { IfOk result (λ b. b ≡ any_pair keys_clash keys.now) }
{
    if keys.len() <= FEW {
        return Ok(any_pair_of(&NamesClash, keys));
    }
    any_clash_of_many(alloc, keys)
}

impl SameName<'_> {
    /// Whether two traits of a table clash.
    fn has_same_name(&self, alloc: Global, table: &[TraitInfo]) -> Result<bool, NoMemory>
        ensures { IfOk result (λ b. b ≡ any_pair (names_clash self.now.names.abc.now) table.now) }
    {
        self.names.keys_tell_names();
        let keys = sided_keys(alloc, &self.names, table)?;
        any_clash(alloc, keys.as_slice())
    }

    /// Whether two traits of a table clash. Of fewer than two none do.
    #[tactic(auto, using(abc_link_names::proofs::ItemsPairs::few_pairs))]
    fn is_name_shared(&self, alloc: Global, table: &[TraitInfo]) -> Result<bool, NoMemory>
        ensures { IfOk result (λ b. b ≡ any_pair (names_clash self.now.names.abc.now) table.now) }
    {
        if table.len() < 2 {
            return Ok(false);
        }
        self.has_same_name(alloc, table)
    }

    fn breaks(&self, alloc: Global, item: Item) -> Result<bool, NoMemory>
        ensures { IfOk result (λ b. b
            ≡ any_table (any_pair (names_clash self.now.names.abc.now)) self.now.names.abc.now item.kind
            item.index) }
    {
        let of_instances = self.is_name_shared(alloc, instance_table(self.names.abc, item))?;
        let own = self.is_name_shared(alloc, own_table(self.names.abc, item))?;
        Ok(of_instances || own)
    }
}

impl Rule for SameName<'_> {
    ghost file = { λ r. r.names.abc.now };

    ghost rule = { λ _. rules.SameName };

    fn rule(&self) -> LinkRule {
        LinkRule::SameName
    }

    fn abc(&self) -> &Abc {
        self.names.abc
    }

    fn is_broken(&self, alloc: Global, item: Item) -> Result<bool, NoMemory> {
        self.breaks(alloc, item)
    }
}
