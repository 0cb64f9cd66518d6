use crate::traits::TraitInfo;
use abc_base::Table;

/// What the instances of a class are (Overview, chapter 4, "Instance"). The class of the same number has the rest.
#[derive(Debug, Drop)]
pub struct Instance {
    /// A multiname, counted from 1, never 0.
    pub name: u32,
    /// The base: a multiname, counted from 1; 0 is none.
    pub super_name: u32,
    /// 01 sealed, 02 final, 04 interface, 08 protected namespace; other bits are kept.
    pub flags: u8,
    /// A namespace, counted from 1, where flag 08 is set; 0 is none.
    pub protected_ns: Option<u32>,
    /// Multinames, counted from 1, never 0.
    pub interfaces: Table<u32>,
    /// The instance initializer: a method, counted from 0.
    pub iinit: u32,
    pub traits: Table<TraitInfo>,
}

/// What a class object is (Overview, chapter 4, "Class").
#[derive(Debug, Drop)]
pub struct ClassInfo {
    /// The class initializer: a method, counted from 0.
    pub cinit: u32,
    pub traits: Table<TraitInfo>,
}

/// A script (Overview, chapter 4, "Script"). The last one is the entry point.
#[derive(Debug, Drop)]
pub struct Script {
    /// A method, counted from 0.
    pub init: u32,
    pub traits: Table<TraitInfo>,
}
