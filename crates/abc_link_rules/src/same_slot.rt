ghost use Rattle.std.specs.Prelude.{◌≡◌, ◌<◌, ◌^◌, length, map, nat_eq, IfOk};
ghost use Rattle.std.specs.Option.{option_copied};
ghost use Rattle.indexmap.specs.IndexMap.{get};
ghost use Rattle.abc_link_rules.specs.Repeats.{is_repeat as repeats_at};
ghost use Rattle.abc_link_names.specs.ItemTypes.{any_pair, any_table, slot_id as id_of, slots_clash};
ghost use Rattle.abc_link_names.specs.declared.items.LinkRule.TheVariants as rules;

use abc_base::NoMemory;
use abc_base_graphs::index_of;
use abc_file_types::{Abc, TraitBody, TraitInfo};
use abc_link_names::{Clash, FEW, Item, LinkRule, Rule, any_pair_of, instance_table, own_table};
use indexmap::IndexMap;
use std::alloc::Global;

/// No two traits of one table have one slot number.
#[derive(Clone, Copy, Debug)]
pub(crate) struct SameSlot<'a> {
    pub abc: &'a Abc,
}

/// The slot number of a trait; 0 is none.
fn slot_id(body: TraitBody) -> u32
    ensures { result ≡ id_of body }
{
    match body {
        TraitBody::Slot { id, .. } | TraitBody::Class { id, .. } | TraitBody::Function { id, .. } =>
            id,
        TraitBody::Method { .. } | TraitBody::Getter { .. } | TraitBody::Setter { .. } => 0,
    }
}

/// Two traits clash where they have one slot number above 0.
struct SlotsClash;

impl Clash for SlotsClash {
    ghost use Rattle.abc_link_names.specs.ItemTypes.{slots_clash};

    type Value = TraitInfo;

    ghost clash = { λ _. slots_clash };

    fn do_clash(&self, first: &TraitInfo, later: &TraitInfo) -> bool {
        let id = slot_id(first.body);
        id != 0 && id == slot_id(later.body)
    }
}

/// The slot numbers of a table.
fn slot_ids(alloc: Global, table: &[TraitInfo]) -> Result<Vec<u32>, NoMemory>
    ensures { IfOk result (λ ids. ids.items ≡ map (λ t. id_of t.body) table.now) }
{
    let mut ids = Vec::with_capacity(alloc, table.len())?;
    for info in table {
        ids.push(slot_id(info.body))?;
    }
    Ok(ids)
}

/// Whether a number above 0 stands first at another place than the given one.
fn is_repeat(firsts: &IndexMap<u32, u32>, id: u32, place: u32) -> bool
    ensures { result ≡ repeats_at (get nat_eq firsts.now id) id place }
{
    match firsts.get(&id) {
        Some(first) => id != 0 && *first != place,
        None => false,
    }
}

/// Whether two traits of a table have one slot number.
#[tactic(auto, using(crate::proofs::SlotRepeats::slots_repeat, crate::proofs::SlotRepeats::slots_distinct))]
fn has_same_slot(alloc: Global, table: &[TraitInfo]) -> Result<bool, NoMemory>
    ensures { IfOk result (λ b. b ≡ any_pair slots_clash table.now) }
{
    let ids = slot_ids(alloc, table)?;
    if ids.len() > u32::MAX as usize {
        return Err(NoMemory);
    }
    let firsts = index_of(alloc, ids.as_slice())?;
    for i in 0..ids.len() {
        if is_repeat(&firsts, ids[i], i as u32) {
            return Ok(true);
        }
    }
    Ok(false)
}

/// Whether two traits of a table have one slot number. Of few each pair is looked at.
fn is_slot_shared(alloc: Global, table: &[TraitInfo]) -> Result<bool, NoMemory>
    ensures { IfOk result (λ b. b ≡ any_pair slots_clash table.now) }
{
    if table.len() <= FEW {
        return Ok(any_pair_of(&SlotsClash, table));
    }
    has_same_slot(alloc, table)
}

impl SameSlot<'_> {
    fn breaks(&self, alloc: Global, item: Item) -> Result<bool, NoMemory>
        ensures { IfOk result
            (λ b. b ≡ any_table (any_pair slots_clash) self.now.abc.now item.kind item.index) }
    {
        let of_instances = is_slot_shared(alloc, instance_table(self.abc, item))?;
        let own = is_slot_shared(alloc, own_table(self.abc, item))?;
        Ok(of_instances || own)
    }
}

impl Rule for SameSlot<'_> {
    ghost file = { λ r. r.abc.now };

    ghost rule = { λ _. rules.SameSlot };

    fn rule(&self) -> LinkRule {
        LinkRule::SameSlot
    }

    fn abc(&self) -> &Abc {
        self.abc
    }

    fn is_broken(&self, alloc: Global, item: Item) -> Result<bool, NoMemory> {
        self.breaks(alloc, item)
    }
}
