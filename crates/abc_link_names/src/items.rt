ghost use Rattle.std.specs.Prelude.{◌≡◌};
ghost use Rattle.abc_link_names.specs.Items.{kind_name, link_rule_name};

/// The rules of linking, in the order in which they are tried.
#[derive(Clone, Copy, Debug, PartialEq, Eq)]
pub enum LinkRule {
    /// There is no script.
    NoScript,
    /// A name is of a kind that its place does not take.
    NameKind,
    /// A base does not resolve to a class.
    UnknownBase,
    /// Following bases, or interfaces of interfaces, returns to the class.
    BaseCycle,
    /// The base is final.
    FinalBase,
    /// The base is an interface.
    BaseIsInterface,
    /// An interface name resolves to no interface of the file.
    UnknownInterface,
    /// A type does not resolve.
    UnknownType,
    /// A method is named twice.
    OwnedTwice,
    /// A method that is run has no body.
    NoBody,
    /// Two traits of one table have one name.
    SameName,
    /// Two traits of one table have one slot number.
    SameSlot,
    /// A trait is of a kind, or has a value, that is not run.
    TraitNotRun,
    /// A size of a body is above 65,535.
    TooLarge,
}

impl LinkRule {
    /// The rule's name, as error lines show it.
    pub fn name(&self) -> &[u8]
        ensures { result.now ≡ link_rule_name self.now }
    {
        match self {
            LinkRule::NoScript => b"NoScript",
            LinkRule::NameKind => b"NameKind",
            LinkRule::UnknownBase => b"UnknownBase",
            LinkRule::BaseCycle => b"BaseCycle",
            LinkRule::FinalBase => b"FinalBase",
            LinkRule::BaseIsInterface => b"BaseIsInterface",
            LinkRule::UnknownInterface => b"UnknownInterface",
            LinkRule::UnknownType => b"UnknownType",
            LinkRule::OwnedTwice => b"OwnedTwice",
            LinkRule::NoBody => b"NoBody",
            LinkRule::SameName => b"SameName",
            LinkRule::SameSlot => b"SameSlot",
            LinkRule::TraitNotRun => b"TraitNotRun",
            LinkRule::TooLarge => b"TooLarge",
        }
    }
}

/// What kind of part of the file an item is, in file order.
#[derive(Clone, Copy, Debug, PartialEq, Eq)]
pub enum ItemKind {
    File,
    Method,
    Class,
    Script,
    Body,
}

impl ItemKind {
    /// The kind's name, as error lines show it.
    pub fn name(&self) -> &[u8]
        ensures { result.now ≡ kind_name self.now }
    {
        match self {
            ItemKind::File => b"file",
            ItemKind::Method => b"method",
            ItemKind::Class => b"class",
            ItemKind::Script => b"script",
            ItemKind::Body => b"body",
        }
    }
}

/// A part of the file that a rule names. The file itself has index 0.
#[derive(Clone, Copy, Debug, PartialEq, Eq)]
pub struct Item {
    pub kind: ItemKind,
    pub index: u32,
}
