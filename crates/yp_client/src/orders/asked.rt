//! What the calls on one wire come to.

ghost use Rattle.std.specs.Prelude.{◌≡◌, ◌≤◌, length, map, All, IfOk};
ghost use Rattle.yp_messages.specs.Numbers.{name_max};
ghost use Rattle.yp_client.specs.inside.States.{state_of};
ghost use Rattle.yp_client.specs.orders.Asked.{ListsMaps, TellsMaster, TellsOrder, TellsOrders, TellsSurvey};
ghost use Rattle.yp_client.specs.orders.InTurn.{InTurn};
ghost use Rattle.yp_client.specs.inside.orders.Asked.{told, mastered_view, masters_view, survey_view, HasShortNames};

use crate::query::answer::copied;
use crate::query::fault::QueryFault;
use crate::{Client, ClientFault};
use std::alloc::Global;
use yp_io::{Sink, Source};
use yp_messages::Names;
use yp_version::Order;

/// A map, and the name of its master.
#[derive(Drop)]
pub struct Mastered {
    pub name: Vec<u8>,
    pub master: Vec<u8>,
}

/// What the first server tells: its maps and their masters, and its order of each, or none.
#[derive(Drop)]
pub struct Survey {
    pub maps: Vec<Mastered>,
    pub orders: Vec<Option<Order>>,
}

/// The names of a domain's maps.
fn ask_maps<S: Source, K: Sink>(
    client: &mut Client<S, K>,
    domain: &[u8],
) -> Result<Names, QueryFault>
    requires { length domain.now ≤ name_max }
    ensures lists { ListsMaps domain.now (told (λ names. names) result)
        (state_of S.Source K.Sink client.old) (state_of S.Source K.Sink client.new) }
    ensures short { IfOk result (λ names. All (λ name. length name ≤ name_max) names) }
{
    match client.maplist(domain) {
        Ok(list) => Ok(list.maps),
        Err(fault) => Err(fault.into()),
    }
}

/// The master of a map.
fn ask_master<S: Source, K: Sink>(
    alloc: Global,
    client: &mut Client<S, K>,
    domain: &[u8],
    map: &[u8],
) -> Result<Mastered, QueryFault>
    requires domain { length domain.now ≤ name_max }
    requires map { length map.now ≤ name_max }
    ensures tells { TellsMaster domain.now map.now (told mastered_view result)
        (state_of S.Source K.Sink client.old) (state_of S.Source K.Sink client.new) }
    ensures named { IfOk result (λ mastered. mastered.name.items ≡ map.now) }
{
    match client.master(domain, map) {
        Ok(master) => {
            let master = copied(alloc, master)?;
            let name = copied(alloc, map)?;
            Ok(Mastered { name, master })
        }
        Err(fault) => Err(fault.into()),
    }
}

/// The masters of these maps, in their order.
fn ask_masters<S: Source, K: Sink>(
    alloc: Global,
    client: &mut Client<S, K>,
    domain: &[u8],
    names: &Names,
) -> Result<Vec<Mastered>, QueryFault>
    requires domain { length domain.now ≤ name_max }
    requires names { All (λ name. length name ≤ name_max) names.now }
    ensures tells { InTurn (TellsMaster domain.now) names.now (told masters_view result)
        (state_of S.Source K.Sink client.old) (state_of S.Source K.Sink client.new) }
    ensures short { IfOk result (λ maps. HasShortNames (masters_view maps)) }
{
    let mut maps = Vec::new(alloc);
    for i in 0..names.len() {
        let Some(name) = names.get(i) else {
            unreachable!()
        };
        let map = ask_master(alloc, client, domain, name)?;
        let Ok(()) = maps.push(map) else {
            return Err(QueryFault::NoMemory);
        };
    }
    Ok(maps)
}

/// The order of a map, or none where the server answers with a status.
fn ask_order<S: Source, K: Sink>(
    client: &mut Client<S, K>,
    domain: &[u8],
    map: &Mastered,
) -> Result<Option<Order>, QueryFault>
    requires domain { length domain.now ≤ name_max }
    requires map { length map.now.name.items ≤ name_max }
    ensures { TellsOrder domain.now (mastered_view map.now) result
        (state_of S.Source K.Sink client.old) (state_of S.Source K.Sink client.new) }
{
    match client.order(domain, &map.name) {
        Ok(order) => Ok(Some(order)),
        Err(ClientFault::Yp(_)) => Ok(None),
        Err(fault) => Err(fault.into()),
    }
}

/// The orders of these maps, one behind the other.
pub fn ask_orders<S: Source, K: Sink>(
    alloc: Global,
    client: &mut Client<S, K>,
    domain: &[u8],
    maps: &[Mastered],
) -> Result<Vec<Option<Order>>, QueryFault>
    requires domain { length domain.now ≤ name_max }
    requires maps { HasShortNames (map mastered_view maps.now) }
    ensures { TellsOrders domain.now (map mastered_view maps.now) (told (λ orders. orders.items) result)
        (state_of S.Source K.Sink client.old) (state_of S.Source K.Sink client.new) }
{
    let mut orders = Vec::new(alloc);
    for map in maps {
        let order = ask_order(client, domain, map)?;
        let Ok(()) = orders.push(order) else {
            return Err(QueryFault::NoMemory);
        };
    }
    Ok(orders)
}

/// The maps of a domain, their masters, and then their orders.
pub fn ask_survey<S: Source, K: Sink>(
    alloc: Global,
    client: &mut Client<S, K>,
    domain: &[u8],
) -> Result<Survey, QueryFault>
    requires { length domain.now ≤ name_max }
    ensures tells { TellsSurvey domain.now (told survey_view result)
        (state_of S.Source K.Sink client.old) (state_of S.Source K.Sink client.new) }
    ensures short { IfOk result (λ survey. HasShortNames (masters_view survey.maps)) }
{
    let names = ask_maps(client, domain)?;
    let maps = ask_masters(alloc, client, domain, &names)?;
    let orders = ask_orders(alloc, client, domain, &maps)?;
    Ok(Survey { maps, orders })
}
