//! What a walk gives is what its source shows, whatever the network loses, repeats or reorders.
//!
//! That what was heard is in turn stands on [`laws::heard_is_in_turn`], and what a walk then gives on
//! [`laws::walked_is_shown`], [`laws::skew_is_shown`] and [`laws::shown_is_walked`]. The same of mails that were
//! delivered in any schedule stands on [`laws::delivered_is_of_source`], [`laws::delivered_skews`] and
//! [`laws::delivered_is_whole`].

pub mod laws;
