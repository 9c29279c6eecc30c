//! Tests of `yp_version`, `yp_map_file`, `yp_board`, `yp_texts`, `yp_netgroup` and `yp_netgroup::reverse`: maps, and
//! what they are made of.
#![tactic(auto)]

#[cfg(test)]
mod build;
#[cfg(test)]
mod catalog;
#[cfg(test)]
mod given;
#[cfg(test)]
mod netgroup;
#[cfg(test)]
mod plain;
#[cfg(test)]
mod sample;
#[cfg(test)]
mod slot;
#[cfg(test)]
mod version;
