ghost use Rattle.std.specs.Prelude.{◌≡◌, ◌<◌, ◌^◌, get_or, MatchOption};
ghost use Rattle.abc_tidy_refs.specs.Nodes.{counts_of, node_in_pool as at, node_count, node_of, new_index, set_node, set_number_in};

use abc_base::Table;
use abc_file_types::{Abc, Pool};

/// How many entries the pools have, without entry 0.
#[derive(Clone, Copy, Debug, PartialEq, Eq)]
pub struct Counts {
    pub ints: u32,
    pub uints: u32,
    pub doubles: u32,
    pub strings: u32,
    pub namespaces: u32,
    pub sets: u32,
    pub names: u32,
}

/// The node of an index, in a pool of so many entries, before which there are so many others.
fn node_at(before: usize, size: u32, index: u32) -> usize
    requires { before < 2 ^ 40 }
    ensures { result ≡ at before size index }
{
    if index == 0 {
        return 0;
    }
    if index <= size {
        return before + index as usize;
    }
    0
}

impl Counts {
    /// The counts of a file's pools, unless these have 2^32 entries or more.
    pub fn of(abc: &Abc) -> Option<Counts>
        ensures { MatchOption result (Unit {0}) (λ c. (c ≡ counts_of abc.now) × (node_count c < 2 ^ 32)) }
    {
        let ints = u32::try_from(abc.ints.len()).ok()?;
        let uints = u32::try_from(abc.uints.len()).ok()?;
        let doubles = u32::try_from(abc.doubles.len()).ok()?;
        let strings = u32::try_from(abc.strings.len()).ok()?;
        let namespaces = u32::try_from(abc.namespaces.len()).ok()?;
        let sets = u32::try_from(abc.sets.len()).ok()?;
        let names = u32::try_from(abc.names.len()).ok()?;
        let counts = Counts {
            ints,
            uints,
            doubles,
            strings,
            namespaces,
            sets,
            names,
        };
        if counts.nodes() > u32::MAX as usize {
            return None;
        }
        Some(counts)
    }

    /// How many nodes there are, with node 0.
    pub fn nodes(&self) -> usize
        ensures { result ≡ node_count self.now }
    {
        self.ints as usize
            + self.uints as usize
            + self.doubles as usize
            + self.strings as usize
            + self.namespaces as usize
            + self.sets as usize
            + self.names as usize
            + 1
    }

    /// The node of an entry of a pool, or node 0 where there is no such entry.
    pub fn node(&self, pool: Pool, index: u32) -> usize
        ensures { result ≡ node_of self.now pool index }
    {
        let uints = self.ints as usize;
        let doubles = uints + self.uints as usize;
        let strings = doubles + self.doubles as usize;
        let spaces = strings + self.strings as usize;
        let names = spaces + self.namespaces as usize + self.sets as usize;
        match pool {
            Pool::NoPool => 0,
            Pool::Int => node_at(0, self.ints, index),
            Pool::UInt => node_at(uints, self.uints, index),
            Pool::Double => node_at(doubles, self.doubles, index),
            Pool::Text => node_at(strings, self.strings, index),
            Pool::Space => node_at(spaces, self.namespaces, index),
            Pool::Name => node_at(names, self.names, index),
        }
    }

    /// The node of a set of namespaces, or node 0 where there is no such set.
    pub fn set_node(&self, index: u32) -> usize
        ensures { result ≡ set_node self.now index }
    {
        let before = self.ints as usize
            + self.uints as usize
            + self.doubles as usize
            + self.strings as usize
            + self.namespaces as usize;
        node_at(before, self.sets, index)
    }
}

/// New numbers for the entries of a file's pools, by their nodes; 0 for those that go.
#[derive(Debug, Drop)]
pub struct Numbers {
    pub counts: Counts,
    pub numbers: Table<u32>,
}

impl Numbers {
    /// The new number of a node.
    #[tactic(auto, using(crate::proofs::Reading::no_number, crate::proofs::Reading::a_number))]
    fn at(&self, node: usize) -> u32
        ensures { result ≡ get_or self.now.numbers node 0 }
    {
        match self.numbers.fetch(node) {
            Some(number) => number,
            None => 0,
        }
    }

    /// The new number for an index of a pool; a number that names nothing stays.
    pub fn number(&self, pool: Pool, index: u32) -> u32
        ensures { result ≡ new_index self.now pool index }
    {
        match pool {
            Pool::NoPool => index,
            _ => self.at(self.counts.node(pool, index)),
        }
    }

    /// The new number for the index of a set of namespaces.
    pub fn set_number(&self, index: u32) -> u32
        ensures { result ≡ set_number_in self.now index }
    {
        self.at(self.counts.set_node(index))
    }
}
