/// What a call of an allocating extern did: the call's site as for a block, the extern's address, and the
/// block that it gave, of which the base is 0 where it gave none.
#[derive(Clone, Copy, Debug, PartialEq, Eq)]
pub struct Allocation {
    pub site: u32,
    pub extern_at: u32,
    pub base: u32,
    pub size: u32,
}
