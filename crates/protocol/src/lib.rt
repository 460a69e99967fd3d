// What each call of a replica is: the definitions of opening, record, timer and propose, for every input. No code.
// specs/: Work has the actions, Refusals the table of refusals, Events what an accepted call does, Rules the rules A to D as they are run, Applies the same rules as 01
// states them, Calls the calls, OneCall and Whole what is claimed of one call, AsBefore what is claimed of 02's leader list 0 to n - 1, OneChain the statement of demand 3.
// Promises, all proved in proofs/: a refused call changes nothing; the refusals stand in 01's order; the output fits; refusal 2 is never given for what opening and calls left; no call changes
// the leader list, and with 0 to n - 1 every list of calls gives what it gives by 01's rule; the
// rules' run is 01's loop and ends; what is written are whole records; over any list of calls that meets 01's premises all releases lie along one chain (`demand_3`).
// proofs/: call is about one call, loop about the rules' run, chain is the proof of demand 3, example has the example run, 01's listing and known results.
// Rests on the definitions and laws of the crates below, and on the argument of `safety`.
#![tactic(auto)]
