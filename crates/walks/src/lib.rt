// The steps of a proof by hand over a lent slice of structs or a lent struct, for a function that the check does not cover: today it covers all of this repository's, and no crate
// uses them. They have no code. Promises: nothing of any crate; proofs/ has the steps (plain data, calls, lending and return of a slice, locals that are lent), which another crate
// would import as `Rattle.walks.proofs.Calls`. Rests on nothing but the language's library.
#![tactic(auto)]
