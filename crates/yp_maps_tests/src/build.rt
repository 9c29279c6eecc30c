//! Texts, and the versions that are built of them.

mod dumps;
mod kinds;
mod rows;
mod versions;
