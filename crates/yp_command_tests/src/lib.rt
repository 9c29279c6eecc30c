//! Tests of commands as `yp_program` runs them over memory: what memory alone can show of `once`, `session`, `sample`,
//! the clients with `orders`, `build`, `load`, `check`, `dump`, `xfr` and `revnet`, as calls that fail and crashes; and
//! the codes and notes of statuses. The rest is in examples/.
#![tactic(auto)]

#[cfg(test)]
mod given;
#[cfg(test)]
mod notes;
#[cfg(test)]
mod once;
#[cfg(test)]
mod orders;
#[cfg(test)]
mod question;
#[cfg(test)]
mod reversing;
#[cfg(test)]
mod sample;
#[cfg(test)]
mod session;
#[cfg(test)]
mod status;
#[cfg(test)]
mod storing;
