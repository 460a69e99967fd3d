// Why all releases lie along one chain, for any step machine: no code, definitions in specs/ and theorems in proofs/.
// Promises: where at least n - f replicas are honest and each keeps what `Keeps` of specs/Run.antt asks, call by call, the rows of any two honest
// replicas are linked from genesis on, and the shorter one is the beginning of the longer (`row_linked`, `one_chain`, `one_length` of proofs/Run.antt).
// Rests on the quorums of `settings` and on the order and the safe certificate of `certificate`.
#![tactic(auto)]
