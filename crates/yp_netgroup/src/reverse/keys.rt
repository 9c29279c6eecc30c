//! The keys of a map's triples, and the groups that list them.

ghost use Rattle.std.specs.Prelude.{◌≡◌, ◌++◌, ℕ, List, [], IfOk, OnOk, map, option_map};
ghost use Rattle.yp_netgroup.specs.inside.Member.{part_of as member_of};
ghost use Rattle.yp_netgroup.specs.Parts.{parts};
ghost use Rattle.yp_version.specs.Rows.{IsRising};
ghost use Rattle.yp_netgroup.specs.inside.reverse.Links.{bytes_in, key_in, listing, listing_members, sources, under};
ghost use Rattle.yp_netgroup.specs.inside.reverse.Listings.{link_of};

use crate::reverse::field::{Field, is_dash};
use crate::reverse::links::{Links, no_links, put};
use crate::{Member, members};
use std::alloc::Global;
use std::random::RandomSource;
use yp_io::NoMemory;
use yp_version::Version;

// A key, and a group that lists a triple with it.
#[derive(Drop)]
pub(crate) struct Listing<'a> {
    pub(crate) key: Vec<u8>,
    pub(crate) group: &'a [u8],
}

impl Field {
    // The key of a member, where it is a triple that counts.
    fn key_in(self, alloc: Global, member: &Member<'_>) -> Result<Option<Vec<u8>>, NoMemory>
        ensures { IfOk result (λ key. option_map (λ bytes. bytes.items) key ≡ key_in self (member_of member.now)) }
    {
        match *member {
            Member::Group(_) => Ok(None),
            Member::Triple { host, user, domain } => {
                let part = match self {
                    Field::User => user,
                    Field::Host => host,
                };
                if is_dash(part) || is_dash(domain) {
                    return Ok(None);
                }
                Ok(Some(self.key(alloc, part, domain)?))
            }
        }
    }

    // Puts the keys of members behind others.
    fn put_keys<'a>(
        self,
        alloc: Global,
        members: &[Member<'a>],
        group: &'a [u8],
        listings: &mut Vec<Listing<'a>>,
    ) -> Result<(), NoMemory>
        ensures { OnOk result (map link_of listings.new.items ≡ map link_of listings.old.items
            ++ listing_members self (map member_of members.now) group.now) }
    {
        for member in members {
            if let Some(key) = self.key_in(alloc, member)? {
                listings.push(Listing { key, group }).map_err(|_| NoMemory)?;
            }
        }
        Ok(())
    }

    // Puts the keys in a group's text behind others.
    fn put_text<'a>(
        self,
        alloc: Global,
        text: &'a [u8],
        group: &'a [u8],
        listings: &mut Vec<Listing<'a>>,
    ) -> Result<(), NoMemory>
        ensures { OnOk result (map link_of listings.new.items ≡ map link_of listings.old.items
            ++ listing_members self (parts text.now) group.now) }
    {
        let members = members(alloc, text)?;
        self.put_keys(alloc, &members, group, listings)
    }

    // Puts the keys of all triples of a map that count, where there are none yet.
    fn put_texts<'a>(
        self,
        alloc: Global,
        netgroup: &'a Version,
        listings: &mut Vec<Listing<'a>>,
    ) -> Result<(), NoMemory>
        requires { listings.old.items ≡ [] }
        ensures listings { OnOk result (map link_of listings.new.items ≡ listing self netgroup.now.rows) }
        ensures rising { OnOk result (IsRising netgroup.now.rows) }
    {
        for i in 0..netgroup.len() {
            let Some((group, text)) = netgroup.row(i) else {
                unreachable!()
            };
            self.put_text(alloc, text, group, listings)?;
        }
        Ok(())
    }

    // The keys of all triples of a map that count.
    pub(crate) fn listings<'a>(
        self,
        alloc: Global,
        netgroup: &'a Version,
    ) -> Result<Vec<Listing<'a>>, NoMemory>
        ensures listings { IfOk result (λ listings. map link_of listings.items ≡ listing self netgroup.now.rows) }
        ensures rising { IfOk result (λ listings. IsRising netgroup.now.rows) }
    {
        let mut listings = Vec::new(alloc);
        self.put_texts(alloc, netgroup, &mut listings)?;
        Ok(listings)
    }
}

// Puts the group of each listing under its key, where nothing is under a key yet.
fn put_listings<'a>(
    alloc: Global,
    links: &mut Links<'a>,
    listings: &'a [Listing<'a>],
) -> Result<(), NoMemory>
    requires { (key : List ℕ) → under links.old key ≡ [] }
    ensures { OnOk result ((key : List ℕ) → under links.new key ≡ sources key (map link_of listings.now)) }
{
    for listing in listings {
        put(alloc, links, &listing.key, listing.group)?;
    }
    Ok(())
}

// Under each key the groups that list it.
pub(crate) fn listed<'a>(
    alloc: Global,
    rt: &impl RandomSource,
    listings: &'a [Listing<'a>],
) -> Result<Links<'a>, NoMemory>
    ensures { IfOk result (λ links. (key : List ℕ) → under links key ≡ sources key (map link_of listings.now)) }
{
    let mut links = no_links(alloc, rt)?;
    put_listings(alloc, &mut links, listings)?;
    Ok(links)
}

// The keys of listings.
pub(crate) fn keys_of<'a>(
    alloc: Global,
    listings: &'a [Listing<'a>],
) -> Result<Vec<&'a [u8]>, NoMemory>
    ensures { IfOk result (λ keys. bytes_in keys.items ≡ map (λ listing. listing.key.items) listings.now) }
{
    let mut keys: Vec<&[u8]> = Vec::new(alloc);
    for listing in listings {
        keys.push(&listing.key).map_err(|_| NoMemory)?;
    }
    Ok(keys)
}
