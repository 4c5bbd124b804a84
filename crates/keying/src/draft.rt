// A draft: a key in the making, and two engines.
use crate::engines::Engines;
use crate::key::Key;

#[derive(Drop)]
pub struct Draft<P, Q> {
    pub(crate) key: Key,
    pub(crate) engines: Engines<P, Q>,
}
