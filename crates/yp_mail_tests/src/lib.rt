//! Tests of `yp_push`, `yp_binding`, `yp_push::turns` and `yp_binding::portmap`: what is asked and answered in
//! datagrams; and of `yp_command`: the words of the command line.
#![tactic(auto)]

#[cfg(test)]
mod bind;
#[cfg(test)]
mod given;
#[cfg(test)]
mod portmap;
#[cfg(test)]
mod push;
#[cfg(test)]
mod pushing;
#[cfg(test)]
mod words;
