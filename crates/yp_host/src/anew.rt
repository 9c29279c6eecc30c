//! A version that is made anew for a map.

ghost use Rattle.std.specs.Prelude.{◌≡◌, ◌⊎◌, ◌<◌, ◌≤◌, ℕ, false, List, Option, None, Some, length, option_map, IfSome};
ghost use Rattle.std.specs.Prelude.{IfOk, IfErr};
ghost use Rattle.yp_io.specs.Counts.{HasRisen};
ghost use Rattle.yp_io.specs.Texts.{text_max};
ghost use Rattle.yp_board.specs.Logs.{shown};
ghost use Rattle.yp_texts.specs.After.{other_master, was_secure};
ghost use Rattle.yp_publisher.specs.declared.install.Origin.TheVariants.{Built};
ghost use Rattle.yp_publisher.specs.Installs.{offer, not_following};
ghost use Rattle.yp_host.specs.Locals.{told_of};
ghost use Rattle.yp_texts.specs.Readings.{source_of};
ghost use Rattle.yp_answer.specs.Make.{map_name, netgroups_at};
ghost use Rattle.yp_answer.specs.Causes.{OfNetgroups, IsAnew};
ghost use Rattle.yp_answer.specs.inside.Causes.{build_stat};
ghost use Rattle.yp_host.specs.Anew.{IsUnbuilt};
ghost use Rattle.yp_host.specs.inside.Anew.{task_from, task_of_text, task_view, netgroups_in, shown_in};

use std::alloc::Global;
use std::random::RandomSource;
use yp_answer::{MakeJob, Making};
use yp_board::{Catalog, View};
use yp_io::{Clock, TextFault, Texts};
use yp_messages::XfrStat;
use yp_netgroup::reverse::{Field, RevFault, reverse};
use yp_texts::{
    AfterFault, BuildFault, Maker, Reading, SourceText, build_after, next_order, other_master,
};
use yp_version::Version;

/// What a version is made of: a map of the catalogue, and what is shown.
#[derive(Clone, Copy)]
pub struct BuildTask<'a> {
    pub catalog: &'a Catalog,
    /// The map, and how it is made.
    pub job: MakeJob,
    /// What is shown of the netgroups in the domain of the map.
    pub netgroups: Option<&'a Version>,
    /// What is shown of the map.
    pub shown: Option<&'a Version>,
}

impl<'a> BuildTask<'a> {
    /// What is made by a job, behind all that a view knows.
    pub fn of<V: View>(view: &'a V, job: MakeJob) -> BuildTask<'a>
        requires { job.map < length (V.seen view.now).catalogue.maps }
        ensures catalogue { result.catalog.now ≡ (V.seen view.now).catalogue }
        ensures job { result.job ≡ job }
        ensures netgroups { netgroups_in result
            ≡ netgroups_at (V.seen view.now).catalogue job (V.seen view.now).known }
        ensures shown { shown_in result ≡ shown job.map (V.seen view.now).known }
    {
        BuildTask {
            catalog: view.catalog(),
            job,
            netgroups: netgroups(view, job),
            shown: view.held(job.map),
        }
    }
}

/// The version of the netgroups in the domain of a map that a view knows.
fn netgroups<V: View>(view: &V, job: MakeJob) -> Option<&Version>
    requires { job.map < length (V.seen view.now).catalogue.maps }
    ensures { option_map (λ version. version.now) result
        ≡ netgroups_at (V.seen view.now).catalogue job (V.seen view.now).known }
{
    let map = job.netgroups(view.catalog())?;
    view.held(map)
}

/// Makes a version of a map. It is marked as the one that is shown.
///
/// A map with another master is REFUSED, a text that isn't read is FILE, netgroups that aren't shown are NOMAP, an
/// order that is spent AGE, and a row that passes a limit DBM. Want of memory is RSRC.
pub fn build_anew<T: Texts, C: Clock>(
    alloc: Global,
    rt: &impl RandomSource,
    texts: &mut T,
    clock: &mut C,
    task: &BuildTask<'_>,
) -> Result<Version, XfrStat>
    requires { task.now.job.map < length task.now.catalog.now.maps }
    ensures anew { IfOk result (IsAnew (told_of T.Texts C.Clock texts.old clock.old) (task_view task.now)) }
    ensures follows { IfOk result (λ version. not_following task.now.catalog.now.own (offer version Built false)
        (shown_in task.now) ≡ None) }
    ensures unbuilt { IfErr result (IsUnbuilt (told_of T.Texts C.Clock texts.old clock.old)
        (T.faults texts.old) (T.faults texts.new) (task_view task.now)) }
    ensures texts { (file : List ℕ) → T.text texts.new file ≡ T.text texts.old file }
    ensures clock { C.moment clock.new ≡ C.moment clock.old }
    ensures never_falls { T.faults texts.old ≤ T.faults texts.new }
{
    if other_master(task.catalog.own(), task.shown).is_some() {
        return Err(XfrStat::Refused);
    }
    match task.job.making {
        Making::Text(reading) => build_of_text(alloc, rt, texts, clock, task, reading),
        Making::Netgroups(field) => build_of_netgroups(alloc, rt, clock, task, field),
    }
}

/// Builds a version of the text of a map, behind one that has no other master.
fn build_of_text<T: Texts, C: Clock>(
    alloc: Global,
    rt: &impl RandomSource,
    texts: &mut T,
    clock: &mut C,
    task: &BuildTask<'_>,
    reading: Reading,
) -> Result<Version, XfrStat>
    requires map { task.now.job.map < length task.now.catalog.now.maps }
    requires same { other_master task.now.catalog.now.own (shown_in task.now) ≡ None }
    ensures anew { IfOk result (IsAnew (told_of T.Texts C.Clock texts.old clock.old) (task_of_text reading task.now)) }
    ensures follows { IfOk result (λ version. not_following task.now.catalog.now.own (offer version Built false)
        (shown_in task.now) ≡ None) }
    ensures unbuilt { IfErr result (IsUnbuilt (told_of T.Texts C.Clock texts.old clock.old)
        (T.faults texts.old) (T.faults texts.new) (task_of_text reading task.now)) }
    ensures texts { (file : List ℕ) → T.text texts.new file ≡ T.text texts.old file }
    ensures clock { C.moment clock.new ≡ C.moment clock.old }
    ensures never_falls { T.faults texts.old ≤ T.faults texts.new }
{
    let name = source_name(task, reading);
    let text = read_text(alloc, texts, name)?;
    let source = SourceText { reading, text };
    let moment = clock.now();
    let maker = Maker {
        name: task.catalog.own(),
        moment,
    };
    match build_after(alloc, rt, source, task.shown, None, &maker) {
        Ok(version) => Ok(version),
        Err(AfterFault::Build(fault)) => Err(build_stat(fault)),
        Err(AfterFault::Foreign { .. }) => unreachable!(),
    }
}

/// Makes the reverse of netgroups, where they are shown, behind a version that has no other master. No text is read,
/// so it is so whatever texts are told and however often they failed.
fn build_of_netgroups<C: Clock>(
    alloc: Global,
    rt: &impl RandomSource,
    clock: &mut C,
    task: &BuildTask<'_>,
    field: Field,
) -> Result<Version, XfrStat>
    requires same { other_master task.now.catalog.now.own (shown_in task.now) ≡ None }
    ensures anew { (text : List ℕ → Option (List ℕ)) → IfOk result (IsAnew
        (record { text = text; moment = C.moment clock.old })
        (task_from (OfNetgroups field (netgroups_in task.now)) task.now.catalog.now.own (shown_in task.now))) }
    ensures follows { IfOk result (λ version. not_following task.now.catalog.now.own (offer version Built false)
        (shown_in task.now) ≡ None) }
    ensures unbuilt { (text : List ℕ → Option (List ℕ)) (faults : ℕ) → IfErr result (IsUnbuilt
        (record { text = text; moment = C.moment clock.old }) faults faults
        (task_from (OfNetgroups field (netgroups_in task.now)) task.now.catalog.now.own (shown_in task.now))) }
    ensures clock { C.moment clock.new ≡ C.moment clock.old }
{
    let Some(netgroups) = task.netgroups else {
        return Err(XfrStat::Nomap);
    };
    let now = clock.now();
    let last = task.shown.map(|version: &Version| version.order());
    let Ok(order) = next_order(last, now) else {
        return Err(XfrStat::Age);
    };
    match reverse(alloc, rt, netgroups, field, order, task.catalog.own()) {
        Ok(version) => Ok(version.marked(is_secure(task.shown))),
        Err(RevFault::Row { .. }) => Err(XfrStat::Dbm),
        Err(RevFault::NoMemory) => Err(XfrStat::Rsrc),
    }
}

/// Whether a version is secure that is shown.
fn is_secure(shown: Option<&Version>) -> bool
    ensures { result ≡ was_secure (option_map (λ version. version.now) shown.entry) }
{
    match shown {
        None => false,
        Some(shown) => shown.secure(),
    }
}

/// The name of the text of a map that is read so.
fn source_name<'a>(task: &BuildTask<'a>, reading: Reading) -> &'a [u8]
    requires { task.now.job.map < length task.now.catalog.now.maps }
    ensures { result.now ≡ source_of reading (map_name task.now.job.map task.now.catalog.now) }
{
    reading.source(&task.catalog.name(task.job.map).map)
}

/// The text with a name.
fn read_text<T: Texts>(alloc: Global, texts: &mut T, name: &[u8]) -> Result<Vec<u8>, XfrStat>
    ensures text { IfOk result (λ text. IfSome (T.text texts.old name.now) (λ told. text.items ≡ told)) }
    ensures limit { IfOk result (λ text. length text.items ≤ text_max) }
    ensures fault { IfErr result (λ stat. (stat ≡ XfrStat.Rsrc)
        ⊎ ((stat ≡ XfrStat.File) × HasRisen (T.faults texts.old) (T.faults texts.new))) }
    ensures same { (file : List ℕ) → T.text texts.new file ≡ T.text texts.old file }
    ensures never_falls { T.faults texts.old ≤ T.faults texts.new }
{
    let mut text = Vec::new(alloc);
    match texts.read(name, &mut text) {
        Ok(()) => Ok(text),
        Err(TextFault::Failed) => Err(XfrStat::File),
        Err(TextFault::NoMemory) => Err(XfrStat::Rsrc),
    }
}

/// The status of a version that isn't built.
fn build_stat(fault: BuildFault) -> XfrStat
    ensures { result ≡ build_stat fault }
{
    match fault {
        BuildFault::OrderSpent => XfrStat::Age,
        BuildFault::NoMemory => XfrStat::Rsrc,
        BuildFault::KeyLong { .. }
        | BuildFault::ValueLong { .. }
        | BuildFault::TooManyRows { .. }
        | BuildFault::TooBig { .. } => XfrStat::Dbm,
    }
}
