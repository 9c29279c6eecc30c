//! What the desk of a site has, and the ledgers of what is counted while workers share it.

use std::marker::{Brand, PhantomData};
use std::sync::ledger::Ledger;
use yp_publisher::sharing::Accounts;

/// What a desk of a site has, whoever uses it: it never changes; how often its texts and its dial had failed before
/// they were shared, and which wires its dial had and what it had sent; the ledgers of what is counted since then; and
/// the queue of those who are to be told what their transfers came to. Each call of a program that shares a desk picks
/// it.
pub trait Supplies {
    ghost use Rattle.std.specs.Prelude.{ℕ, List, Option};
    ghost use Rattle.atomic_table.specs.Seated.{TableId};
    ghost use Rattle.yp_io.specs.Dials.{Wires, Sending};
    ghost use Rattle.yp_transfer.specs.HostTable.{HostList};

    /// The bytes of each text, where they are told.
    ghost text: { List ℕ → Option (List ℕ) };

    /// The addresses of the hosts that maps are fetched from.
    ghost hosts: { HostList };

    /// How often its texts had failed.
    ghost text_faults: { ℕ };

    /// The wires of its dial, where they were told.
    ghost wires: { Option Wires };

    /// What its dial had sent, where that was told.
    ghost letters: { Option (List Sending) };

    /// How often its dial had failed.
    ghost dial_faults: { ℕ };

    /// The name of the ledger of texts that weren't read.
    ghost unread: { ℕ };

    /// The name of the ledger of orders that were reached.
    ghost orders: { ℕ };

    /// The name of the ledger of sources that failed.
    ghost sources: { ℕ };

    /// The name of the queue of call backs.
    ghost call_backs: { TableId };
}

impl Supplies for Brand {
    ghost use Rattle.std.specs.Prelude.{None, []};

    ghost text = { λ file. None };

    ghost hosts = { [] };

    ghost text_faults = { 0 };

    ghost wires = { None };

    ghost letters = { None };

    ghost dial_faults = { 0 };

    ghost unread = { 0 };

    ghost orders = { 0 };

    ghost sources = { 0 };

    ghost call_backs = { record {
      words = 0;
      slots = 0;
      views_name = 0;
      atom = 0;
      block = 0;
      offset = 0;
      slot_names = [];
    } };
}

/// The ledger of the texts of a site that weren't read.
#[derive(Drop)]
pub struct UnreadTexts<S: Accounts + Supplies> {
    of: PhantomData<S>,
}

impl<S: Accounts + Supplies> Ledger for UnreadTexts<S> {
    ghost name = { S.unread };

    ghost parts = { S.shares };
}

/// The ledger of the orders that the fetches of a site reached.
#[derive(Drop)]
pub struct ReachedOrders<S: Accounts + Supplies> {
    of: PhantomData<S>,
}

impl<S: Accounts + Supplies> Ledger for ReachedOrders<S> {
    ghost name = { S.orders };

    ghost parts = { S.shares };
}

/// The ledger of the sources that failed the fetches of a site.
#[derive(Drop)]
pub struct FailedSources<S: Accounts + Supplies> {
    of: PhantomData<S>,
}

impl<S: Accounts + Supplies> Ledger for FailedSources<S> {
    ghost name = { S.sources };

    ghost parts = { S.shares };
}
