//! What is fetched of a map is what its source shows.
//!
//! That a version is the one that the source showed at all of its replies stands on
//! [`laws::fetched_is_shown`], and that a fetch of a map that doesn't change meanwhile gives it on
//! [`laws::shown_is_fetched`]. The first, over a wire that gives what a server sent in a run, stands on
//! [`laws::run_is_fetched`].

pub mod laws;
