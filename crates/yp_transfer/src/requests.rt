//! What is asked for: a map of a source, and its transfer.

use crate::calling_back::Asker;
use yp_version::Order;

/// What is wanted of a source: a map of a domain.
#[derive(Clone, Copy)]
pub struct FetchRequest<'a> {
    pub domain: &'a [u8],
    pub map: &'a [u8],
    /// The order of the version that is shown, if one is.
    pub shown: Option<Order>,
    /// Whether an order will do that isn't over that.
    pub force: bool,
}

/// The transfer of a map.
#[derive(Clone, Copy)]
pub struct TransferRequest<'a> {
    /// The number of the map in the catalogue, from 0.
    pub map: u32,
    /// The name of the host that has the map.
    pub source: &'a [u8],
    /// Whether an order will do that isn't over the one that is shown.
    pub force: bool,
    /// Whether the version is secure. Without a mark it is as the version that is then shown, so not secure where none
    /// is.
    pub mark: Option<bool>,
}

/// A transfer that a caller asked for, not forced and without a mark, and how the caller is told what came of it.
#[derive(Clone, Copy)]
pub struct AskedTransfer<'a> {
    /// The number of the map in the catalogue, from 0.
    pub map: u32,
    /// The name of the host that has the map.
    pub source: &'a [u8],
    pub asker: Asker,
}
