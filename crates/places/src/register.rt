// The inner record of a station: its key and its eight places.
use crate::filled::Filled;
use keying::key::Key;

#[derive(Clone, Copy)]
pub struct Register {
    pub key: Key,
    pub places: [Option<Filled>; 8],
}
