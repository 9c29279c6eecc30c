//! A map that a worker makes.

ghost use Rattle.std.specs.Prelude.{◌≡◌, ◌<◌, None, length, IfSome};
ghost use Rattle.std.specs.Option.{option_map_or};
ghost use Rattle.yp_answer.specs.inside.Make.{IsMadeAsNamed};
ghost use Rattle.yp_publisher.specs.sharing.Shares.{Learns};
ghost use Rattle.yp_host.specs.workers.Desks.{texts_alone};
ghost use Rattle.yp_host.specs.workers.Makings.{IsMadeSo};
ghost use Rattle.yp_host.specs.inside.workers.Makings.{SiteBuilds, IsOvertaken};
ghost use Rattle.yp_host.specs.inside.workers.Charges.{ChargesMore, cost_of_make, no_cost};

use crate::BuildTask;
use crate::workers::charges::Charges;
use crate::workers::setting::WorkerSetting;
use crate::workers::supplies::Supplies;
use crate::workers::texts::SharedTexts;
use std::random::RandomSource;
use std::sync::Wait;
use yp_answer::MakeJob;
use yp_board::Tell;
use yp_io::{Clock, Dial, Disk, NoMemory, Texts};
use yp_messages::XfrStat;
use yp_publisher::Origin;
use yp_publisher::sharing::{Accounts, MapOffer, Site, install_shared, tell_shared};
use yp_texts::laws::built_is_built_behind;

/// Makes a map anew, behind all that was shown, and lets the reader know it. Where another version of the map is shown
/// meanwhile, it is built again behind that, so the orders of the map rise with each round.
pub(crate) fn make_shared<S, D, B, A, T, C, R>(
    setting: &WorkerSetting<'_, S, D, B, A, T, C, R>,
    texts: &mut SharedTexts<S, T, C>,
    reader: &mut B::Reader,
    charges: &mut Charges<S>,
    job: MakeJob,
) -> XfrStat
where
    S: Site + Accounts + Supplies,
    D: Disk,
    B: Tell,
    A: Dial,
    T: Texts,
    C: Clock,
    R: RandomSource + Wait,
    requires builds { SiteBuilds S.text S.catalogue S.built }
    requires map { job.map < length S.catalogue.maps }
    requires as_named { IsMadeAsNamed S.catalogue job }
    requires catalogue { (B.Reader.seen reader.old).catalogue ≡ S.catalogue }
    ensures made { IsMadeSo (texts_alone S.text) S.catalogue job result
        (B.Reader.seen reader.old).known (B.Reader.seen reader.new).known }
    ensures learned { Learns (B.Reader.seen reader.old) (B.Reader.seen reader.new) }
    ensures charged { ChargesMore (cost_of_make result) charges.old charges.new }
    ensures left { charges.new.left ≡ charges.old.left }
{
    if let Err(NoMemory) = tell_shared(&setting.rt, setting.publisher, reader) {
        return XfrStat::Rsrc;
    }
    'rounds: loop {
        if let Some(stat) = make_behind(setting, texts, reader, charges, job) {
            return stat;
        }
    }
}

/// Builds a map behind what the reader knows, and installs it. Where another version of the map was shown meanwhile,
/// which isn't lower, there is no status, and the reader knows that version.
fn make_behind<S, D, B, A, T, C, R>(
    setting: &WorkerSetting<'_, S, D, B, A, T, C, R>,
    texts: &mut SharedTexts<S, T, C>,
    reader: &mut B::Reader,
    charges: &mut Charges<S>,
    job: MakeJob,
) -> Option<XfrStat>
where
    S: Site + Accounts + Supplies,
    D: Disk,
    B: Tell,
    A: Dial,
    T: Texts,
    C: Clock,
    R: RandomSource + Wait,
    requires builds { SiteBuilds S.text S.catalogue S.built }
    requires map { job.map < length S.catalogue.maps }
    requires as_named { IsMadeAsNamed S.catalogue job }
    requires catalogue { (B.Reader.seen reader.old).catalogue ≡ S.catalogue }
    ensures made { IfSome result (λ stat. IsMadeSo (texts_alone S.text) S.catalogue job stat
        (B.Reader.seen reader.old).known (B.Reader.seen reader.new).known) }
    ensures overtaken { result ≡ None → IsOvertaken job.map
        (B.Reader.seen reader.old).known (B.Reader.seen reader.new).known }
    ensures learned { Learns (B.Reader.seen reader.old) (B.Reader.seen reader.new) }
    ensures charged { ChargesMore (option_map_or cost_of_make result no_cost) charges.old charges.new }
    ensures left { charges.new.left ≡ charges.old.left }
{
    let task = BuildTask::of(reader, job);
    let version = match texts.build(setting.alloc, &setting.rt, &task, charges) {
        Ok(version) => version,
        Err(stat) => return Some(stat),
    };
    let _order = version.order();
    built_is_built_behind();
    match install_shared(
        setting.alloc,
        &setting.rt,
        setting.publisher,
        reader,
        MapOffer {
            map: job.map,
            version,
            origin: Origin::Built,
            known: None,
        },
        &mut charges.debits,
    ) {
        Ok(()) => Some(XfrStat::Succ),
        Err(fault) => match fault.stat() {
            XfrStat::Age => None,
            stat => Some(stat),
        },
    }
}
