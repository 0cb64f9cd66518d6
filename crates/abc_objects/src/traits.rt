/// The namespace of a declared trait.
#[derive(Clone, Copy, Debug, PartialEq, Eq)]
pub enum TraitSpace {
    /// The public one. It needs no entry of the pool.
    Public,
    /// One of the pool, by its index.
    Pool(u32),
}

/// What a declared trait is.
#[derive(Clone, Copy, Debug, PartialEq, Eq)]
pub enum Member {
    /// A slot, by its place in the layout.
    Slot { slot: u32, constant: bool },
    Method(u32),
    Getter(u32),
    Setter(u32),
}

/// A declared trait, but for its text.
#[derive(Clone, Copy, Debug, PartialEq, Eq)]
pub struct Declared {
    pub space: TraitSpace,
    pub member: Member,
}
