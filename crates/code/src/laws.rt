// The laws of the code, each of them a theorem.
ghost use Rattle.code.specs.Laws.{Laws as Lawful};

// Computes nothing: its contract is the record of the laws.
pub fn laws()
    ensures { Lawful }
{}
