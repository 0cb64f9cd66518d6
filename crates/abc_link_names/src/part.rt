use abc_base::HostClass;

/// The number of a layout. A base has a lower number than what stands under it; that of Object's instances is 0.
#[derive(Clone, Copy, Debug, PartialEq, Eq)]
pub struct LayoutId(pub u32);

/// What a layout is of.
#[derive(Clone, Copy, Debug, PartialEq, Eq)]
pub enum Part {
    /// The instances of a class of the host.
    Host(HostClass),
    /// The instances of a class.
    Instance(u32),
    /// A class object.
    ClassObject(u32),
    /// The class object of a class of the host.
    HostClassObject(HostClass),
    /// The global object of a script.
    Global(u32),
    /// The activation of a body whose method has flag 02.
    Activation(u32),
    /// The catch object of an exception: a body, and one of its exceptions.
    Catch(u32, u32),
}
