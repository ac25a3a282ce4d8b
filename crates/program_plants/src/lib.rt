//! Calls of the server's and the program's crates, each made twice: their contracts determine the outcome.
//!
//! Each function of this crate makes one call twice, from equal states and with equal arguments. Its clauses state that
//! both outcomes are equal. The twin of `read_line` makes its call once, and `is_for` makes its call for two jobs. The
//! prover knows only the clauses of the call. So these clauses exclude every body whose outcome differs in what the
//! function compares. If a call can fail, most functions compare only the outcomes of calls that succeed.
#![tactic(auto)]

pub mod command_line_calls;
pub mod pcap_bench_calls;
pub mod pcap_trace_calls;
pub mod played_calls;
pub mod player_calls;
pub mod qtest_calls;
pub mod schedule_adapters_calls;
pub mod schedule_calls;
pub mod schedule_words_calls;
pub mod text_calls;
