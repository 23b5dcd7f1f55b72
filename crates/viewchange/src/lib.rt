// View change: sites that suspect the leader of a view agree on the next one.
#![tactic(auto)]

ghost use Rattle.std.specs.Prelude.{true, false, ◌≡◌, eqb};
ghost use Rattle.refusal.specs.Rules.{answer};
ghost use Rattle.site.specs.Reply.{Handed, outcome, sends};
ghost use Rattle.viewchange.specs.ViewChange as spec;
ghost use Rattle.viewchange.specs.Code.Parts as parts;

use frame::Heading;
use refusal::{Answer, Refusal, given};
use roster::{Roster, View};
use site::ViewRecord;

// What a step by value gives: how many bytes of the buffer are to be sent, or a refusal, and the record after it.
#[derive(Clone, Copy)]
pub struct Outcome {
    pub answer: Result<usize, Refusal>,
    pub views: ViewRecord,
}

// The kinds of frames taken, as a set of kinds.
const TAKEN: u16 = 1 << frame::SUSPICION | 1 << frame::VIEWCHANGE;

// ---- the checks

// Whether the roster, the own number, the room or the record is one that no step takes.
#[tactic(auto, unfolding(crate::specs::ViewChange::config))]
fn unfit(r: Roster, own: u8, room: usize, v: ViewRecord) -> bool
    ensures { result ≡ spec.config r own room v }
{
    !(site::seated(r, own, room) && v.is_valid(r.n))
}

// Whether the sender is none of the sites.
fn unknown(r: Roster, site: u8) -> bool
    ensures { result ≡ spec.sender r site }
{
    r.n <= site
}

// Whether a site's SUSPICION sets a target: f+1 suspicions, and no target yet.
#[tactic(auto, unfolding(crate::specs::ViewChange::sets, crate::specs::ViewChange::suspected))]
fn sets(r: Roster, v: ViewRecord, site: u8) -> bool
    ensures { result ≡ spec.sets r v site }
{
    let suspicions = roster::with_site(v.suspicions, site);
    roster::reaches(suspicions, r.weak_certificate()) && v.target.is_zero()
}

// Whether a site's SUSPICION sets a target in the last view.
fn full(r: Roster, v: ViewRecord, site: u8) -> bool
    ensures { result ≡ spec.full r v site }
{
    v.view.is_last() && sets(r, v, site)
}

// The answer to a SUSPICION of a view from a site.
fn on_suspicion(r: Roster, v: ViewRecord, site: u8, view: View) -> Answer
    ensures { result ≡ answer (spec.suspicion_rules r v site view) }
{
    let nobody = unknown(r, site);
    let stale = view != v.view;
    let passes = full(r, v, site);
    given(
        nobody,
        Refusal::Sender,
        given(stale, Refusal::Stale, given(passes, Refusal::Full, Ok(()))),
    )
}

// The answer to a VIEWCHANGE to a view from a site, with a mask.
fn on_change(r: Roster, v: ViewRecord, site: u8, view: View, mask: u16) -> Answer
    ensures { result ≡ answer (spec.change_rules r v site view mask) }
{
    let nobody = unknown(r, site);
    let stale = !(view > v.view) | (v.target > view);
    let lacks = roster::unproven(mask, r.n, r.weak_certificate());
    given(
        nobody,
        Refusal::Sender,
        given(stale, Refusal::Stale, given(lacks, Refusal::Proof, Ok(()))),
    )
}

// The answer to a frame, by its kind.
fn check(r: Roster, v: ViewRecord, head: Heading) -> Answer
    ensures { result ≡ answer (spec.frame_rules (spec.kind_of head.kind) r v (parts.bare head)) }
{
    if head.kind == frame::SUSPICION {
        return on_suspicion(r, v, head.sender, head.view);
    }
    on_change(r, v, head.sender, head.view, head.mask)
}

// ---- the effects

// Sends a frame of this kind for a view, with a mask, and answers the length of its line.
fn notify(kind: u8, own: u8, view: View, mask: u16, out: &mut [u8]) -> usize
    ensures { Handed (sends (spec.notice kind own view mask)) result out.old out.new }
{
    let head = Heading {
        kind,
        sender: own,
        view,
        mask,
        ..Heading::default()
    };
    site::send(head, &[], &[], out)
}

// Adds a site's suspicion. If that sets a target, it is the next view, and a VIEWCHANGE to it goes out.
fn suspect(r: Roster, own: u8, v: &mut ViewRecord, site: u8, out: &mut [u8]) -> usize
    requires { spec.full r v.old site ≡ false }
    ensures { parts.Done (spec.suspicion r own v.old site) out.old result v.new out.new }
{
    let targets = sets(r, *v, site);
    v.suspicions = roster::with_site(v.suspicions, site);
    if !targets {
        return 0;
    }
    v.target = View(v.view.0 + 1);
    v.changes = roster::with_site(0, own);
    notify(frame::VIEWCHANGE, own, v.target, v.suspicions, out)
}

// Takes a new target: its mask starts with the sender and the own site, and a VIEWCHANGE with the frame's mask goes out.
fn restart(own: u8, v: &mut ViewRecord, site: u8, view: View, mask: u16, out: &mut [u8]) -> usize
    ensures { parts.Done (spec.restart own v.old site view mask) out.old result v.new out.new }
{
    v.target = view;
    v.changes = roster::with_site(roster::with_site(0, site), own);
    notify(frame::VIEWCHANGE, own, view, mask, out)
}

// Adds a site to the target mask. At N-f sites the view becomes the target, and LEADER goes out with the mask.
fn join(r: Roster, own: u8, v: &mut ViewRecord, site: u8, out: &mut [u8]) -> usize
    ensures { parts.Done (spec.join r own v.old site) out.old result v.new out.new }
{
    v.changes = roster::with_site(v.changes, site);
    if !roster::reaches(v.changes, r.quorum()) {
        return 0;
    }
    let sent = notify(frame::LEADER, own, v.target, v.changes, out);
    *v = ViewRecord {
        view: v.target,
        ..ViewRecord::fresh()
    };
    sent
}

// Does what an accepted frame asks for, by its kind, and answers how many bytes are to be sent.
fn perform(r: Roster, own: u8, v: &mut ViewRecord, head: Heading, out: &mut [u8]) -> usize
    requires { eqb head.kind spec.suspicion_kind ≡ true → spec.full r v.old head.sender ≡ false }
    ensures { parts.Done (spec.accepted (spec.kind_of head.kind) r own v.old (parts.bare head)) out.old result v.new out.new }
{
    if head.kind == frame::SUSPICION {
        return suspect(r, own, v, head.sender, out);
    }
    if head.view == v.target {
        return join(r, own, v, head.sender, out);
    }
    restart(own, v, head.sender, head.view, head.mask, out)
}

// ---- the steps

// One step in place: how much of the buffer is to be sent, or why the line is refused; then record and buffer stay.
fn step_in_place(
    r: Roster,
    own: u8,
    v: &mut ViewRecord,
    line: &[u8],
    out: &mut [u8],
) -> Result<usize, Refusal>
    ensures { (outcome result v.new ≡ spec.returned r own v.old line.now out.old) × (out.new ≡ spec.output r own v.old line.now out.old) }
{
    if unfit(r, own, out.len(), *v) {
        return Err(Refusal::Config);
    }
    let Some(head) = frame::read_bare(line, TAKEN) else {
        return Err(Refusal::Form);
    };
    check(r, *v, head)?;
    Ok(perform(r, own, v, head, out))
}

// The host's own suspicion in place.
fn suspicion_in_place(
    r: Roster,
    own: u8,
    v: &mut ViewRecord,
    view: View,
    out: &mut [u8],
) -> Result<usize, Refusal>
    ensures { (outcome result v.new ≡ spec.returned r own v.old (spec.own_suspicion own view) out.old) × (out.new ≡ spec.output r own v.old (spec.own_suspicion own view) out.old) }
{
    let barred = unfit(r, own, out.len(), *v);
    if barred {
        return Err(Refusal::Config);
    }
    on_suspicion(r, *v, own, view)?;
    Ok(suspect(r, own, v, own, out))
}

// One step by value. Any line is answered, in any state.
pub fn step(r: Roster, own: u8, v: ViewRecord, line: &[u8], out: &mut [u8]) -> Outcome
    ensures { (outcome result.answer result.views ≡ spec.returned r own v line.now out.old) × (out.new ≡ spec.output r own v line.now out.old) }
{
    let mut views = v;
    let answer = step_in_place(r, own, &mut views, line, out);
    Outcome { answer, views }
}

// The host's own suspicion of a view, by value: it enters as a SUSPICION from itself.
pub fn suspicion(r: Roster, own: u8, v: ViewRecord, view: View, out: &mut [u8]) -> Outcome
    ensures { (outcome result.answer result.views ≡ spec.returned r own v (spec.own_suspicion own view) out.old) × (out.new ≡ spec.output r own v (spec.own_suspicion own view) out.old) }
{
    let mut views = v;
    let answer = suspicion_in_place(r, own, &mut views, view, out);
    Outcome { answer, views }
}
