/// What a node is by itself: what kind it is of, and which of that kind.
#[derive(Clone, Copy, Debug, PartialEq, Eq)]
pub struct Head {
    pub kind: u8,
    pub value: u32,
}
