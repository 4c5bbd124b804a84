// What tell answers of a filled place.
#[derive(Clone, Copy, PartialEq, Eq, Debug)]
pub struct Holding {
    pub width: u32,
    pub allowance: u16,
}
