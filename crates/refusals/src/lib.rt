// The refusals of a replica up to what the store is asked: the place "regions", and from 6 on for a record that has its shape.
// Promises: each function refuses by the first rule of its list in `protocol` that applies, and doesn't where none does, on any content of
// counters and memory. It asks that the bytes are there: `regions` asks nothing. Rests on `certificate`, `memory` and the definitions of `protocol`.
#![tactic(auto)]

pub mod early;
pub mod regions;
