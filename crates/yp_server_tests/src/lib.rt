//! Tests of `yp_server`: connections and datagrams that workers in threads serve.
#![tactic(auto)]

#[cfg(test)]
mod behind;
#[cfg(test)]
mod gate;
#[cfg(test)]
mod given;
#[cfg(test)]
mod sample;
#[cfg(test)]
mod threads;
