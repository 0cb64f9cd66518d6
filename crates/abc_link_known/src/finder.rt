ghost use Rattle.std.specs.Prelude.{◌≡◌};
ghost use Rattle.abc_link_known.specs.Spots.{AreSpots, spot_of_class, spot_of_space};

use crate::spots::Spots;
use abc_link_names::Names;

/// The names of a file, with the spots of namespaces.
#[derive(Clone, Copy)]
pub(crate) struct Finder<'a> {
    pub names: Names<'a>,
    pub spots: &'a Spots,
    ghost sound: { AreSpots names.abc.now names.tables.now.numbers spots.now },
}

impl Finder<'_> {
    /// The spot of a namespace, if the name of a class has an equal one.
    pub fn spot_of_space(&self, space: u32) -> Option<u32>
        ensures { result ≡ spot_of_space self.now.names.abc.now self.now.names.tables.now.numbers space }
    {
        self.spots.of_space(&self.names, space)
    }

    /// The spot of the namespace of a class.
    pub fn spot_of_class(&self, class: u32) -> u32
        ensures { result ≡ spot_of_class self.now.names.abc.now self.now.names.tables.now.numbers class }
    {
        self.spots.of_class(&self.names, class)
    }
}
