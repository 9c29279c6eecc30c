//! The texts and the clock that threads share, under one lock.

ghost use Rattle.std.specs.Prelude.{◌≡◌, ◌+◌, ◌<◌, ◌≤◌, length, IfOk, IfErr};
ghost use Rattle.yp_texts.specs.After.{HasLaterOrder};
ghost use Rattle.yp_answer.specs.Causes.{IsAnew};
ghost use Rattle.yp_host.specs.Anew.{IsUnbuilt};
ghost use Rattle.yp_host.specs.inside.Anew.{task_view, shown_in};
ghost use Rattle.yp_host.specs.workers.Desks.{texts_alone};
ghost use Rattle.yp_host.specs.inside.workers.Desks.{TextsTell};
ghost use Rattle.yp_host.specs.inside.workers.Charges.{CoversUnread, unread_in};

use crate::workers::charges::Charges;
use crate::workers::supplies::{Supplies, UnreadTexts};
use crate::{BuildTask, build_anew};
use std::alloc::Global;
use std::marker::Model;
use std::random::RandomSource;
use std::sync::ledger::{Book, Share};
use yp_io::{Clock, Texts};
use yp_messages::XfrStat;
use yp_publisher::sharing::Accounts;
use yp_version::Version;

/// What maps are made of: the texts, and the clock that their orders follow.
#[derive(Drop)]
pub struct Materials<T, C> {
    pub texts: T,
    pub clock: C,
}

/// The texts and the clock of a site, for a lock to keep, with the book of the texts that weren't read since they are
/// shared. They are seen as they are.
#[derive(Drop)]
pub struct SharedTexts<S: Accounts + Supplies, T: Texts, C: Clock> {
    materials: Materials<T, C>,
    unread: Book<UnreadTexts<S>>,
}

impl<S: Accounts + Supplies, T: Texts, C: Clock> Model for SharedTexts<S, T, C> {
    ghost use Rattle.yp_host.specs.declared.workers.texts.Materials.{Materials};
    ghost use Rattle.yp_host.specs.inside.workers.Desks.{TextsTell};
    ghost use Rattle.yp_host.specs.inside.workers.Charges.{CoversUnread};

    ghost Value = { Materials T C };

    ghost view = { λ t. t.materials };

    ghost invariant = { λ t. TextsTell T.Texts S.text t.materials.texts
        × CoversUnread S.text_faults (T.faults t.materials.texts) t.unread.total };
}

impl<S: Accounts + Supplies, T: Texts, C: Clock> SharedTexts<S, T, C> {
    /// Texts that tell what their site says, and a clock, with the book of the texts that aren't read from now on.
    pub fn new(materials: Materials<T, C>, unread: Book<UnreadTexts<S>>) -> SharedTexts<S, T, C>
        requires supplied { TextsTell T.Texts S.text materials.texts }
        requires before { T.faults materials.texts ≡ S.text_faults }
        requires none { unread.total ≡ 0 }
        ensures { result ≡ materials }
    {
        SharedTexts { materials, unread }
    }

    /// The texts and the clock, once the lock is left. What a caller was charged with is covered by the faults of the
    /// texts.
    pub fn close(self, unread: &mut Share<UnreadTexts<S>>) -> Materials<T, C>
        ensures same { result ≡ self }
        ensures supplied { TextsTell T.Texts S.text result.texts }
        ensures covered { CoversUnread S.text_faults (T.faults result.texts) unread.old.amount }
    {
        let mut shared = self;
        shared.unread.audit(unread);
        let SharedTexts {
            materials,
            unread: _,
        } = shared;
        materials
    }

    /// Builds a version of a map, as [`build_anew`] does. A text that isn't read is charged.
    pub(crate) fn build(
        &mut self,
        alloc: Global,
        rt: &impl RandomSource,
        task: &BuildTask<'_>,
        charges: &mut Charges<S>,
    ) -> Result<Version, XfrStat>
        requires { task.now.job.map < length task.now.catalog.now.maps }
        ensures anew { IfOk result (IsAnew (texts_alone S.text) (task_view task.now)) }
        ensures over { IfOk result (HasLaterOrder (shown_in task.now)) }
        ensures unbuilt { IfErr result (IsUnbuilt (texts_alone S.text)
            (T.faults self.old.texts) (T.faults self.new.texts) (task_view task.now)) }
        ensures clock { C.moment self.new.clock ≡ C.moment self.old.clock }
        ensures never_falls { T.faults self.old.texts ≤ T.faults self.new.texts }
        ensures charged { charges.new ≡ record charges.old { unread = charges.old.unread + unread_in result } }
    {
        let built = build_anew(
            alloc,
            rt,
            &mut self.materials.texts,
            &mut self.materials.clock,
            task,
        );
        self.unread.add(&mut charges.unread, unread_in(&built));
        built
    }
}

/// How many texts weren't read, where no version was built.
fn unread_in(built: &Result<Version, XfrStat>) -> u64
    ensures { result ≡ unread_in built.now }
{
    match built {
        Err(XfrStat::File) => 1,
        _ => 0,
    }
}
