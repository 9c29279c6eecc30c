//! What is fetched where a wire gives the replies of a server.

mod fetched;
mod told;
