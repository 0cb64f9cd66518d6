ghost use Rattle.std.specs.Prelude.{◌≡◌, ◌<◌, ◌≤◌, ◌+◌, ◌*◌, ◌%◌, ◌^◌, ◌++◌, ◌∷◌, [], List, Option, ℕ, length, Some, None, get_or, set, replicate, IfOk};
ghost use Rattle.abc_heap_store.specs.Buckets.{hash_on as the_hash, bucket as the_bucket, AreBuckets};

use abc_base::NoMemory;
use abc_heap_values::Reserved;
use std::alloc::Global;

/// The places of all properties, in buckets by owner and text: the last place in each bucket, and for each place in one
/// the place before it there. Both are counted from 1, and 0 is none.
#[derive(Debug, Drop)]
pub struct Buckets {
    lasts: Vec<u32>,
    /// Up to the last place that came to a bucket.
    befores: Reserved<u32>,
}

/// A hash goes on over a byte.
fn mixed(hash: u64, byte: u8) -> u64
    requires { hash < 4294967296 }
    ensures hash { result ≡ (hash * 65599 + byte) % 4294967296 }
    ensures small { result < 4294967296 }
{
    (hash * 65599 + u64::from(byte)) % 4294967296
}

/// The hash of a text on an object.
fn hashed(owner: u32, text: &[u8]) -> u64
    ensures { result ≡ the_hash owner text.now }
{
    let mut hash = u64::from(owner);
    for byte in text {
        hash = mixed(hash, *byte);
    }
    hash
}

impl Buckets {
    /// Some buckets, at least one, in which nothing is, with room for some places.
    pub fn empty(alloc: Global, buckets: u32, places: u32) -> Result<Buckets, NoMemory>
        ensures { IfOk result (λ b. (b.lasts.items ≡ replicate buckets 0)
            × (b.befores ≡ record { items = []; limit = places })) }
    {
        Ok(Buckets {
            lasts: vec![in alloc; 0; buckets as usize]?,
            befores: Reserved::new(alloc, places)?,
        })
    }

    /// The bucket of a text on an object.
    pub fn of(&self, owner: u32, text: &[u8]) -> usize
        requires { 0 < length self.now.lasts.items }
        ensures bucket { result ≡ the_bucket (length self.now.lasts.items) owner text.now }
        ensures inside { result < length self.now.lasts.items }
    {
        hashed(owner, text) as usize % self.lasts.len()
    }

    /// The last place in a bucket.
    pub fn last(&self, bucket: usize) -> u32
        requires { bucket < length self.now.lasts.items }
        ensures { result ≡ get_or self.now.lasts.items bucket 0 }
    {
        self.lasts[bucket]
    }

    /// The place before a place in its bucket.
    pub fn before(&self, place: u32) -> u32
        requires { place < length self.now.befores.items }
        ensures { result ≡ get_or self.now.befores.items place 0 }
    {
        self.befores.as_slice()[place as usize]
    }

    /// The place before a place in its bucket, where there is one, counted from 0.
    fn place_before(&self, place: u32) -> u32
        requires place { place < length self.now.befores.items }
        requires some { 0 < get_or self.now.befores.items place 0 }
        ensures { result + 1 ≡ get_or self.now.befores.items place 0 }
    {
        let before = self.before(place);
        before - 1
    }

    /// The last place in a bucket, where there is one, counted from 0.
    fn last_place(&self, bucket: usize) -> u32
        requires bucket { bucket < length self.now.lasts.items }
        requires some { 0 < get_or self.now.lasts.items bucket 0 }
        ensures { result + 1 ≡ get_or self.now.lasts.items bucket 0 }
    {
        let last = self.last(bucket);
        last - 1
    }

    /// Goes on to a place: there is none before those on the way.
    fn reach(&mut self, place: u32)
        requires { place < self.old.befores.limit }
        ensures reached { place < length self.new.befores.items }
        ensures same { ((p : ℕ) → get_or self.new.befores.items p 0 ≡ get_or self.old.befores.items p 0)
            × (length self.old.befores.items ≤ length self.new.befores.items) }
        ensures lasts { self.new.lasts.items ≡ self.old.lasts.items }
        ensures limit { self.new.befores.limit ≡ self.old.befores.limit }
    {
        while self.befores.len() <= place {
            self.befores.push(0);
        }
    }

    /// Adds the next place to a bucket.
    pub fn add(&mut self, bucket: usize, place: u32)
        requires bucket { bucket < length self.old.lasts.items }
        requires place { place < self.old.befores.limit }
        requires small { place + 1 < 2 ^ 32 }
        ensures added { (ks : List (Option ℕ)) → place ≡ length ks
            → AreBuckets ks self.old.lasts.items self.old.befores.items
            → AreBuckets (ks ++ Some bucket ∷ []) self.new.lasts.items self.new.befores.items }
        ensures sizes { (length self.new.lasts.items ≡ length self.old.lasts.items)
            × (self.new.befores.limit ≡ self.old.befores.limit) }
    {
        let last = self.last(bucket);
        self.reach(place);
        self.befores.set(place, last);
        self.lasts[bucket] = place + 1;
    }

    /// The place in a bucket that a place is the one before of.
    fn above(&self, bucket: usize, place: u32) -> u32
        requires bucket { bucket < length self.now.lasts.items }
        requires place { (ks : List (Option ℕ)) × AreBuckets ks self.now.lasts.items self.now.befores.items
            × (get_or ks place None ≡ Some bucket) × (place + 1 < get_or self.now.lasts.items bucket 0) }
        ensures { (ks : List (Option ℕ)) → AreBuckets ks self.now.lasts.items self.now.befores.items
            → get_or ks place None ≡ Some bucket
            → (get_or ks result None ≡ Some bucket) × (get_or self.now.befores.items result 0 ≡ place + 1) }
    {
        let mut above = self.last_place(bucket);
        let mut before = self.place_before(above);
        while before != place {
            above = before;
            before = self.place_before(above);
        }
        above
    }

    /// Takes a place out of its bucket.
    pub fn remove(&mut self, bucket: usize, place: u32)
        requires bucket { bucket < length self.old.lasts.items }
        requires place { (ks : List (Option ℕ)) × AreBuckets ks self.old.lasts.items self.old.befores.items
            × (get_or ks place None ≡ Some bucket) }
        ensures removed { (ks : List (Option ℕ)) → AreBuckets ks self.old.lasts.items self.old.befores.items
            → get_or ks place None ≡ Some bucket
            → AreBuckets (set ks place None) self.new.lasts.items self.new.befores.items }
        ensures sizes { (length self.new.lasts.items ≡ length self.old.lasts.items)
            × (self.new.befores.limit ≡ self.old.befores.limit) }
    {
        let before = self.before(place);
        let top = self.last_place(bucket);
        if top == place {
            self.lasts[bucket] = before;
            return;
        }
        let above = self.above(bucket, place);
        self.befores.set(above, before);
    }
}
