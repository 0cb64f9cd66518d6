ghost use Rattle.std.specs.Prelude.{◌≡◌, ◌<◌, ◌+◌, ◌^◌, length, IfOk, MatchResult};
ghost use Rattle.abc_tidy_refs.specs.Nodes.{counts_of, node_count, new_index};
ghost use Rattle.abc_tidy_refs.specs.Renumbered.{beside, new_file};
ghost use Rattle.abc_tidy_entries.specs.declared.error.TidyError.TheVariants as errors;
ghost use Rattle.abc_tidy_entries.specs.declared.error.TidyRule.TheVariants as rules;
ghost use Rattle.abc_tidy_entries.specs.Rules.{HoldsTidyRule, IsTidied, IsTidyError};
ghost use Rattle.abc_base_trees.specs.Classes.{AllClassed, AreTreeClasses};
ghost use Rattle.abc_file_types.specs.Files.{Fits};
ghost use Rattle.abc_tidy.specs.Classed.{AreClassed};
ghost use Rattle.abc_tidy_entries.specs.Entries.{graph_of};
ghost use Rattle.abc_tidy_entries.specs.Once.{once};
ghost use Rattle.abc_tidy.specs.Planned.{IsPlan};
ghost use Rattle.abc_tidy_entries.specs.Visited.{IsTidiedValue, roots_of};

use abc_base::{NoMemory, Table, release};
use abc_base_trees::{Classes, Head, Rows, classes_of, parts_first, visit_order};
use abc_file_types::Abc;
use abc_tables::fits;
use abc_tidy_entries::{
    TidyError, TidyRule, check_indices, entries_of, first_cyclic, heads_of, marks_of, named_in,
    new_pools, numbers_of,
};
use abc_tidy_refs::{Counts, Numbers, refs_of, renumber};
use std::alloc::Global;

/// Tries that no name that is visited reaches itself. The first that does is refused.
#[tactic(auto, using(crate::proofs::Tidied::refused_name, crate::proofs::Tidied::no_name))]
fn check_names(alloc: Global, abc: &Abc) -> Result<(), TidyError>
    requires few { length (abc.now).names + 1 < 2 ^ 32 }
    requires operands { HoldsTidyRule abc.now rules.Operand }
    requires param_names { HoldsTidyRule abc.now rules.ParamName }
    ensures { MatchResult result (λ _. HoldsTidyRule abc.now rules.NameCycle) (IsTidyError abc.now) }
{
    let refs = refs_of(alloc, abc)?;
    match first_cyclic(alloc, abc, &refs)? {
        Some(index) => Err(TidyError::Refused {
            rule: TidyRule::NameCycle,
            index,
        }),
        None => Ok(()),
    }
}

/// The same, where it is known which entries have classes: if all that are named have, no name reaches itself, and the
/// graph of names is not made.
fn check_classes(
    alloc: Global,
    abc: &Abc,
    _heads: &Table<Head>,
    classes: &Classes,
    roots: &Table<u32>,
) -> Result<(), TidyError>
    requires few { length (abc.now).names + 1 < 2 ^ 32 }
    requires operands { HoldsTidyRule abc.now rules.Operand }
    requires param_names { HoldsTidyRule abc.now rules.ParamName }
    requires rooted { roots.now ≡ once (roots_of abc.now) }
    requires valid { AreTreeClasses _heads.now (graph_of abc.now) classes.now.keys.keys classes.now.classes }
    requires ordered { HoldsTidyRule abc.now rules.NameCycle
        → AllClassed classes.now.classes (roots_of abc.now) }
    ensures { MatchResult result
        (λ _. HoldsTidyRule abc.now rules.NameCycle × AllClassed classes.now.classes (roots_of abc.now))
        (IsTidyError abc.now) }
{
    if classes.have(roots.as_slice()) {
        return Ok(());
    }
    check_names(alloc, abc)?;
    Ok(())
}

/// The entries of a file with their classes, and those that the definitions and bodies name, of which each has a class.
#[derive(Drop)]
struct Classed {
    heads: Table<Head>,
    graph: Rows<u32>,
    roots: Table<u32>,
    classes: Classes,
}

/// The classes of the entries of a file, unless a name that is visited reaches itself.
fn class_entries(
    alloc: Global,
    abc: &Abc,
    counts: &Counts,
    roots: Table<u32>,
) -> Result<Classed, TidyError>
    requires roots { roots ≡ once (roots_of abc.now) }
    requires counts { counts.now ≡ counts_of abc.now }
    requires few { node_count counts.now < 2 ^ 32 }
    requires operands { HoldsTidyRule abc.now rules.Operand }
    requires param_names { HoldsTidyRule abc.now rules.ParamName }
    ensures { MatchResult result
        (λ k. AreClassed abc.now k.heads k.graph k.roots k.classes.keys.keys k.classes.classes)
        (IsTidyError abc.now) }
{
    let graph = entries_of(alloc, abc, counts)?;
    let order = parts_first(alloc, &graph, &roots)?;
    let marks = marks_of(alloc, graph.len(), &order)?;
    let heads = heads_of(alloc, abc, marks.as_slice())?;
    let classes = classes_of(alloc, &heads, &graph, &order)?;
    check_classes(alloc, abc, &heads, &classes, &roots)?;
    Ok(Classed {
        heads,
        graph,
        roots,
        classes,
    })
}

/// The new numbers of a file's entries, and the pools of those that stay.
#[derive(Drop)]
struct Plan {
    numbers: Numbers,
    pools: Abc,
}

/// The plan of a file whose entries have these classes.
fn plan_of(alloc: Global, abc: &Abc, counts: Counts, classed: &Classed) -> Result<Plan, NoMemory>
    requires counts { counts ≡ counts_of abc.now }
    requires classed { AreClassed abc.now classed.now.heads classed.now.graph classed.now.roots
        classed.now.classes.keys.keys classed.now.classes.classes }
    ensures { IfOk result
        (λ p. IsTidiedValue abc.now (beside (new_file (new_index p.numbers) abc.now) p.pools)) }
{
    let heads = &classed.heads;
    let graph = &classed.graph;
    let classes = &classed.classes;
    let roots = &classed.roots;
    let seen = visit_order(alloc, heads, graph, classes, roots)?;
    let all = numbers_of(alloc, abc, &counts, heads, graph, classes, &seen)?;
    let numbers = Numbers {
        counts,
        numbers: all,
    };
    let pools = new_pools(alloc, abc, &numbers, &seen)?;
    Ok(Plan { numbers, pools })
}

/// The plan of a file, unless a rule is broken. What it was made from is let go.
fn make_plan(alloc: Global, abc: &Abc) -> Result<Plan, TidyError>
    ensures { MatchResult result (λ p. IsPlan abc.now p.numbers p.pools) (IsTidyError abc.now) }
{
    let counts = match Counts::of(abc) {
        Some(counts) => counts,
        None => return Err(TidyError::NoMemory),
    };
    let named = named_in(alloc, abc, counts)?;
    check_indices(abc, named.are_there)?;
    let classed = class_entries(alloc, abc, &counts, named.nodes)?;
    let plan = plan_of(alloc, abc, counts, &classed)?;
    Ok(plan)
}

/// The definitions and bodies of a file beside the pools of another.
fn put_beside(abc: Abc, pools: Abc) -> Abc
    ensures { result ≡ beside abc pools }
{
    Abc {
        methods: abc.methods,
        metadata: abc.metadata,
        instances: abc.instances,
        classes: abc.classes,
        scripts: abc.scripts,
        bodies: abc.bodies,
        ..pools
    }
}

/// A file with the numbers and pools of its plan, renumbered where it stands.
fn follow(alloc: Global, abc: Abc, plan: Plan) -> Abc
    ensures { result ≡ beside (new_file (new_index plan.numbers) abc) plan.pools }
{
    let mut renumbered = abc;
    renumber(alloc, &mut renumbered, &plan.numbers);
    put_beside(renumbered, plan.pools)
}

/// A tidied file, where some bytes spell it.
fn spelled(tidied: Abc) -> Result<Abc, TidyError>
    ensures { MatchResult result (λ t. (t ≡ tidied) × Fits tidied)
        (λ e. (e ≡ errors.Refused rules.TooLarge 0) × (Fits tidied → ⊥)) }
{
    if fits(&tidied) {
        return Ok(tidied);
    }
    release(tidied);
    Err(TidyError::Refused {
        rule: TidyRule::TooLarge,
        index: 0,
    })
}

/// As `tidy`, for a file that serves nothing else: its definitions and bodies are renumbered where they stand.
pub fn tidy_owned(alloc: Global, abc: Abc) -> Result<Abc, TidyError>
    ensures { MatchResult result (IsTidied abc) (IsTidyError abc) }
{
    match make_plan(alloc, &abc) {
        Ok(plan) => spelled(follow(alloc, abc, plan)),
        Err(error) => {
            release(abc);
            Err(error)
        }
    }
}

/// A file that means the same, without the entries of its pools that nothing names and those that are doubled, and with the
/// others in the order of first use. A file whose pools have 2^32 entries finds no memory.
///
/// The visit goes over methods, metadata, instances, classes, scripts and bodies in file order, and over the fields of each
/// in file order. An entry that is met gets the next number of its pool, before what it names. Index 0 stays 0.
///
/// It is `Refused` where a rule is broken, by the first of them and the least index: an operand of an instruction names an
/// entry that is not there, a name of a parameter is above the strings, a name that is visited reaches itself, or the
/// tidied file is not spelled by any bytes of at most 2^24.
pub fn tidy(alloc: Global, abc: &Abc) -> Result<Abc, TidyError>
    ensures { MatchResult result (IsTidied abc.now) (IsTidyError abc.now) }
{
    let copy = abc.copy(alloc)?;
    tidy_owned(alloc, copy)
}
