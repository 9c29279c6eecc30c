//! Tests of commands as `yp_program` runs them over memory: of `serve` what it serves, and what comes where each call
//! outside fails in turn; of `bind`, `portmap`, `getport`, `setport`, `unsetport`, `push` and `walk` what comes to an
//! inbox and goes out from there, what is stored, and calls that fail.
#![tactic(auto)]

#[cfg(test)]
mod bytes;
#[cfg(test)]
mod given;
#[cfg(test)]
mod logs;
#[cfg(test)]
mod mailing;
#[cfg(test)]
mod makes;
#[cfg(test)]
mod named;
#[cfg(test)]
mod serve;
#[cfg(test)]
mod transfers;
#[cfg(test)]
mod walking;
