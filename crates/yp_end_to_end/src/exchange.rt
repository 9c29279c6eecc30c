//! What a client is told is what the server has.
//!
//! That a server's one reply to each call says what its maps have stands on [`laws::match_tells`] and its like; that a
//! call of a client answers so, on [`laws::answers_are_told`]; and that a query prints the rows, the value, the names
//! or the order of one version, on [`laws::query_prints_told`] and [`laws::run_is_printed`]. A run of a server on
//! logs, as a session gives it, is such a server by [`laws::run_is_in_turn`], and what is printed then by
//! [`laws::log_run_is_printed`].

pub mod laws;
