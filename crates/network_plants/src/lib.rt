//! Plants of the calls of `bring_up`, a driver, a host, a network and a scenario: twins, and calls that are made twice.
//!
//! A twin is a function with the name of a call, and with those clauses of this call that its edits violate. A twin
//! makes the call and returns the call's result, and the prover knows only the clauses of the call. Some twins
//! match on the answer, so that an edit can change one arm. If a call has two twins, the name of the second one, which
//! matches on the answer, ends in `_with_answers`. The edits in `must-fail/` are wrong
//! bodies of twins, which the prover must reject.
//!
//! A function that makes a call twice states in which parts both outcomes are equal: the call's contract determines
//! these parts.
#![tactic(auto)]

pub mod bench_calls;
pub mod bring_up_calls;
pub mod calls_of_host;
pub mod calls_twice;
pub mod consequences;
pub mod control;
pub mod driver_calls;
pub mod group_calls;
pub mod lan_calls;
pub mod network_calls;
