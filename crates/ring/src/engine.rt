// The interface of a ring engine: what it tells of itself, and what its multiplication means.
ghost use Rattle.std.specs.Prelude.{◌≡◌, ℕ, true, length};
ghost use Rattle.ring.specs.Engines.{all_below, engine_answer, engine_buffer, known, Degree};

use crate::refusal::Refusal;

// The largest degree at which an engine multiplies.
pub const MAX_DEGREE: usize = 1024;

// Multiplies polynomials of one degree modulo one modulus.
pub trait RingEngine {
    ghost degree: { Self → ℕ };

    ghost modulus: { Self → ℕ };

    ghost sizes: { (e : Self) → Degree (degree e) };

    ghost moduli: { (e : Self) → known (modulus e) ≡ true };

    fn degree(&self) -> usize
        ensures { result ≡ degree self.now };

    fn modulus(&self) -> u16
        ensures { result ≡ modulus self.now };

    // Writes the ring product of a and b into out, or refuses and leaves out as it was.
    fn multiply(&mut self, a: &[u16], b: &[u16], out: &mut [u16]) -> Result<(), Refusal>
        ensures sized { degree self.new ≡ degree self.old }
        ensures modular { modulus self.new ≡ modulus self.old }
        ensures answers { result ≡ engine_answer (degree self.old) (modulus self.old) a.now b.now (length out.old) }
        ensures writes { out.new ≡ engine_buffer (degree self.old) (modulus self.old) a.now b.now out.old };
}

// Whether each number of a row is below m.
pub fn below(m: u16, row: &[u16]) -> bool
    ensures { result ≡ all_below m row.now }
{
    // `position` of the first number that is not, since std's `all` and `any` take four times as long here.
    row.iter().position(|x| *x >= m).is_none()
}

// The answer of an engine of degree n and modulus m to two operands and a buffer of some places.
pub fn check(n: usize, m: u16, a: &[u16], b: &[u16], places: usize) -> Result<(), Refusal>
    ensures { result ≡ engine_answer n m a.now b.now places }
{
    if n > MAX_DEGREE {
        return Err(Refusal::Mismatch);
    }
    if a.len() != n || b.len() != n || places != n {
        return Err(Refusal::Length);
    }
    if below(m, a) && below(m, b) {
        Ok(())
    } else {
        Err(Refusal::Residue)
    }
}
