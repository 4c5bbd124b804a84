// A reader that has the bytes to come, and the bits of those before them that are not yet taken.
use crate::pending::Pending;

pub mod reading;

#[derive(Drop)]
pub struct BitReader<'a> {
    bytes: &'a [u8],
    pending: Pending,
}
