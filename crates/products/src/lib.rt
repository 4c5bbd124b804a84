// The ring products of keying, sealing and stations, every one of them asked of an engine.
// The callers meet each `requires` by a key's invariant or by their own checks, so an engine has nothing to refuse here.
// The engine is lent for each product: each method of a struct that held the loan would say that it keeps the loan,
// as each function here says that the engine tells the same.
// Rows are arrays with a degree beside them, since nothing here asks for memory; with slices each call would cut them, and the clauses
// would still say `take n` of the arrays that come back. That coefficients are below 2048 is asked and not made a type of, since it holds
// of what a record has by the record's own invariant.
#![tactic(auto)]

pub mod multiply;
pub mod noise;
pub mod padding;
pub mod secret;
pub mod small;
