// A station: a key that stays, eight places, and two engines.
use keying::engines::Engines;
use places::register::Register;

#[derive(Drop)]
pub struct Station<P, Q> {
    pub(crate) register: Register,
    pub(crate) engines: Engines<P, Q>,
}
