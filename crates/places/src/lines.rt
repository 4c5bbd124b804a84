// The records that a deposit, a join and a trim make, each refused where it would be too noisy.
ghost use Rattle.std.specs.Prelude.{◌≡◌, ℕ, ◌+◌, ◌^◌, ◌<◌, true, length, take};
ghost use Rattle.ring.specs.Engines.{all_below};
ghost use Rattle.places.specs.Lines.{candidate, quiet as quiet_of, deposited as deposited_of, together as together_of, shortened as shortened_of};
ghost use Rattle.keying.specs.Told.{ready, telling};
ghost use Rattle.places.specs.Views.{line_of, lined};
ghost use Rattle.products.specs.Asking.{Same};

use crate::filled::Filled;
use code::root::root_up;
use code::width::Width;
use keying::key::Key;
use products::{noise, secret};
use ring::engine::RingEngine;
use ring::refusal::Refusal;
use wrapping::{join, trim, wrap};

// The record, if its allowance is below the radius.
fn quiet(width: Width, coefficients: [u16; 1024], allowance: u64) -> Result<Filled, Refusal>
    requires { all_below (2 ^ width.bits) coefficients ≡ true }
    ensures { (n : ℕ) → lined n result ≡ quiet_of (candidate width.bits (take n coefficients) allowance) }
{
    if allowance >= width.radius() as u64 {
        return Err(Refusal::TooNoisy);
    }
    Ok(Filled {
        width,
        coefficients,
        allowance: allowance as u16,
    })
}

// The record that a deposit fills. The engines are lent apart, so that they may come from anywhere.
pub fn deposited<P: RingEngine, Q: RingEngine>(
    field: &mut P,
    binary: &mut Q,
    key: &Key,
    width: Width,
    noise: &[i16],
    message: &[u8],
) -> Result<Filled, Refusal>
    requires engines { ready key.now.degree (telling P.RingEngine Q.RingEngine field.old binary.old) ≡ true }
    requires noise { length noise.now ≡ key.now.degree }
    ensures told { telling P.RingEngine Q.RingEngine field.new binary.new ≡ telling P.RingEngine Q.RingEngine field.old binary.old }
    ensures answers { lined key.now.degree result ≡ quiet_of (deposited_of key.now width.bits noise.now message.now) }
{
    let n = key.degree;
    let sigma = noise::sigma(field, n, &key.h, noise);
    let mut coefficients = [0u16; 1024];
    wrap::embed(&sigma, message, width, &mut coefficients);
    let distance = secret::distance(binary, n, &coefficients, &key.f, message, width);
    quiet(width, coefficients, root_up(distance) as u64)
}

// The record that a second one added into a first makes; both have one width.
pub fn together(first: Filled, second: Filled) -> Result<Filled, Refusal>
    requires { first.width.bits ≡ second.width.bits }
    ensures { (n : ℕ) → lined n result ≡ quiet_of (together_of (line_of n first) (line_of n second)) }
{
    let mut coefficients = first.coefficients;
    join::add(&mut coefficients, &second.coefficients, first.width);
    let allowance = first.allowance as u64 + second.allowance as u64;
    quiet(first.width, coefficients, allowance)
}

// The record that a trim to the next width makes.
pub fn shortened<Q: RingEngine>(
    binary: &mut Q,
    key: &Key,
    filled: Filled,
    width: Width,
) -> Result<Filled, Refusal>
    requires engine { (Q.RingEngine.degree binary.old ≡ key.now.degree) × (Q.RingEngine.modulus binary.old ≡ 2048) }
    requires width { width.bits + 1 ≡ filled.width.bits }
    ensures same { Same Q.RingEngine binary.old binary.new }
    ensures answers { lined key.now.degree result ≡ quiet_of (shortened_of key.now (line_of key.now.degree filled)) }
{
    let n = key.degree;
    let mut halvings = [0u16; 1024];
    trim::halvings(&filled.coefficients, &mut halvings);
    let distance = secret::distance(binary, n, &halvings, &key.f, &[], filled.width);
    let loss = root_up(distance);
    let mut coefficients = filled.coefficients;
    trim::halve(&mut coefficients, filled.width);
    let allowance = (filled.allowance as u64 + loss as u64 + 1) / 2;
    quiet(width, coefficients, allowance)
}
