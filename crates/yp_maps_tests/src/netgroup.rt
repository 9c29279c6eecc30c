//! Netgroups, and their reverse maps.

mod groups;
mod large;
mod membership;
mod refused;
mod reversed;
mod texts;
