ghost use Rattle.std.specs.Prelude.{◌≡◌};
ghost use Rattle.abc_base.specs.Names.{class_name, fault_name};

/// A class that the host has.
#[derive(Clone, Copy, Debug, PartialEq, Eq)]
pub enum HostClass {
    Object,
    Class,
    Function,
    Namespace,
    Str,
    Int,
    UInt,
    Number,
    Boolean,
    Error,
    TypeError,
    ReferenceError,
    ArgumentError,
    Array,
}

/// The classes of the host, in the order of the host object's properties.
pub const HOST_CLASSES: [HostClass; 14] = [
    HostClass::Object,
    HostClass::Class,
    HostClass::Function,
    HostClass::Namespace,
    HostClass::Str,
    HostClass::Int,
    HostClass::UInt,
    HostClass::Number,
    HostClass::Boolean,
    HostClass::Error,
    HostClass::TypeError,
    HostClass::ReferenceError,
    HostClass::ArgumentError,
    HostClass::Array,
];

impl HostClass {
    /// The name of the class, as code names it.
    pub fn name(&self) -> &[u8]
        ensures { result.now ≡ class_name self.now }
    {
        match self {
            HostClass::Object => b"Object",
            HostClass::Class => b"Class",
            HostClass::Function => b"Function",
            HostClass::Namespace => b"Namespace",
            HostClass::Str => b"String",
            HostClass::Int => b"int",
            HostClass::UInt => b"uint",
            HostClass::Number => b"Number",
            HostClass::Boolean => b"Boolean",
            HostClass::Error => b"Error",
            HostClass::TypeError => b"TypeError",
            HostClass::ReferenceError => b"ReferenceError",
            HostClass::ArgumentError => b"ArgumentError",
            HostClass::Array => b"Array",
        }
    }
}

/// Why a run ended that asked for what this profile does not do.
#[derive(Clone, Copy, Debug, PartialEq, Eq)]
pub enum Fault {
    /// A double is pushed.
    Double,
    /// A result that is not whole, or outside -2147483648 to 4294967295.
    Range,
    /// A result that is no number.
    NotANumber,
    /// A text where a number is wanted.
    TextToNumber,
    /// An object or a namespace where a primitive value is wanted.
    ObjectToPrimitive,
    /// Texts are put in order, and one has a byte above 7F.
    TextOrder,
    /// A call of what a getter gives.
    GetterCall,
    /// An object is made by a function that is no class.
    FunctionConstruct,
    /// An array is made with a negative length, or an element is written past the end of an array.
    ArrayIndex,
}

impl Fault {
    /// The name of the fault, which is that of the variant.
    pub fn name(&self) -> &[u8]
        ensures { result.now ≡ fault_name self.now }
    {
        match self {
            Fault::Double => b"Double",
            Fault::Range => b"Range",
            Fault::NotANumber => b"NotANumber",
            Fault::TextToNumber => b"TextToNumber",
            Fault::ObjectToPrimitive => b"ObjectToPrimitive",
            Fault::TextOrder => b"TextOrder",
            Fault::GetterCall => b"GetterCall",
            Fault::FunctionConstruct => b"FunctionConstruct",
            Fault::ArrayIndex => b"ArrayIndex",
        }
    }
}
