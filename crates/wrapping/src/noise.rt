// The laws of noise, as a contract.
ghost use Rattle.wrapping.specs.Laws.{NoiseLaws};

// What holds of every wrapping, join and trim under every key.
pub fn noise_laws()
    ensures { NoiseLaws }
{}
