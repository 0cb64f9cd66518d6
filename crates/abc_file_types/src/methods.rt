use abc_base::Table;

/// The kind of an optional value or of a slot's value (Overview, chapter 4, "Optional parameters").
#[derive(Clone, Copy, Debug, PartialEq, Eq)]
pub enum ValueKind {
    /// 00
    Undefined,
    /// 01
    Utf8,
    /// 03
    Int,
    /// 04
    UInt,
    /// 06
    Double,
    /// 0A
    False,
    /// 0B
    True,
    /// 0C
    Null,
    /// 05
    Private,
    /// 08
    Namespace,
    /// 16
    Package,
    /// 17
    PackageInternal,
    /// 18
    Protected,
    /// 19
    Explicit,
    /// 1A
    StaticProtected,
}

/// The value of an optional parameter, or of a slot.
#[derive(Clone, Copy, Debug, PartialEq, Eq)]
pub struct OptionValue {
    pub kind: ValueKind,
    /// An index into the pool that the kind names, counted from 1; 0 is the empty text, 0, an unread double or null.
    /// For the kinds Undefined, False, True and Null it is kept and means nothing. Below 2^30.
    pub value: u32,
}

/// A method's signature (Overview, chapter 4, "Method signature").
#[derive(Debug, Drop)]
pub struct Method {
    /// The return type: a multiname, counted from 1; 0 is any type.
    pub ret: u32,
    /// The parameters' types, each as the return type.
    pub params: Table<u32>,
    /// A string of the pool, counted from 1; 0 is none.
    pub name: u32,
    /// 01 arguments, 02 activation, 04 rest, 08 optional values, 40 default XML namespace, 80 parameter names; other
    /// bits are kept.
    pub flags: u8,
    /// The values of the last parameters, where flag 08 is set; at most as many as there are parameters.
    pub options: Table<OptionValue>,
    /// A name for each parameter, where flag 80 is set; not checked, each below 2^30.
    pub param_names: Table<u32>,
}

/// Metadata of traits (Overview, chapter 4, "Metadata").
#[derive(Debug, Drop)]
pub struct Metadata {
    /// A string of the pool, counted from 1; 0 is the empty text.
    pub name: u32,
    /// Strings as the name, an even number of them: the items of the file as one list.
    pub items: Table<u32>,
}
