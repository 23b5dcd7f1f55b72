// Everything that a C or Rust host calls. The host lends a role's record, and each call is the role's own step on it, which changes it in place; the
// small view-change record is copied to a step by value and back. What the step answers is given in numbers. A slice is passed as a pointer to its first
// byte and its length.
#![tactic(auto)]

ghost use Rattle.std.specs.Prelude.{◌≡◌};
ghost use Rattle.frame.specs.Layout.{longest};
ghost use Rattle.leader.specs.Leader as leading;
ghost use Rattle.learner.specs.Learner as learning;
ghost use Rattle.site.specs.Site as fresh;
ghost use Rattle.speckleewe.specs.Outcomes.{acceptor_call, fresh_site, leader_call, learner_call, learner_reply, opening_call, reply, suspicion_call, view_change_call, views_left};

use learner::State;
use refusal::Refusal;
use roster::{Ballot, Roster, View};
use site::ViewRecord;

// What a call that may send answers: the answer's number, and how many bytes of the buffer are to be sent.
#[repr(C)]
#[derive(Clone, Copy)]
pub struct Reply {
    pub answer: u8,
    pub sent: usize,
}

impl From<Result<usize, Refusal>> for Reply {
    ghost from_gives = { λ outcome r. r ≡ reply outcome };

    fn from(outcome: Result<usize, Refusal>) -> Reply {
        Reply {
            answer: refusal::number(outcome.map(|_| ())),
            sent: outcome.unwrap_or(0),
        }
    }
}

// What a learner's call answers: the answer's number, and the supporters.
#[repr(C)]
#[derive(Clone, Copy)]
pub struct LearnerReply {
    pub answer: u8,
    pub supporters: u8,
}

impl From<Result<u8, Refusal>> for LearnerReply {
    ghost from_gives = { λ outcome r. r ≡ learner_reply outcome };

    fn from(outcome: Result<u8, Refusal>) -> LearnerReply {
        LearnerReply {
            answer: refusal::number(outcome.map(|_| ())),
            supporters: outcome.unwrap_or(0),
        }
    }
}

// What a site's acceptor is lent: the site's view-change record, which is also lent to the view change, and the acceptor's state.
#[repr(C)]
#[derive(Clone, Copy)]
pub struct Site {
    pub views: ViewRecord,
    pub acceptor: acceptor::State,
}

// A ballot that a leader is to open, a classic one where `fast` is 0.
#[repr(C)]
#[derive(Clone, Copy)]
pub struct Opening {
    pub ballot: Ballot,
    pub fast: u8,
}

// A fresh view-change record: view 0, no suspicion, no target.
#[unsafe(no_mangle)]
pub extern "C" fn speckleewe_view_record_fresh() -> ViewRecord
    ensures { result ≡ fresh.fresh }
{
    ViewRecord::fresh()
}

// A fresh site: a fresh record, and an acceptor with all 0 and empty.
#[unsafe(no_mangle)]
pub extern "C" fn speckleewe_site_fresh() -> Site
    ensures { result ≡ fresh_site }
{
    Site {
        views: ViewRecord::fresh(),
        acceptor: acceptor::State::fresh(),
    }
}

// A fresh leader: all 0 and empty.
#[unsafe(no_mangle)]
pub extern "C" fn speckleewe_leader_fresh() -> leader::State
    ensures { result ≡ leading.fresh }
{
    leader::State::fresh()
}

// The longest line, with its line feed.
#[unsafe(no_mangle)]
pub extern "C" fn speckleewe_longest_line() -> usize
    ensures { result ≡ longest }
{
    frame::LONGEST
}

// A fresh learner: nothing stored, nothing learned.
#[unsafe(no_mangle)]
pub extern "C" fn speckleewe_learner_fresh() -> State
    ensures { result ≡ learning.fresh }
{
    State::fresh()
}

// A step of the view change of site `own` on the record that the host lends.
#[unsafe(no_mangle)]
pub extern "C" fn speckleewe_view_change(
    views: &mut ViewRecord,
    roster: Roster,
    own: u8,
    line: &[u8],
    out: &mut [u8],
) -> Reply
    ensures { view_change_call views.old roster own line.now out.old (views_left result views.new) out.new }
{
    let changed = viewchange::step(roster, own, *views, line, out);
    *views = changed.views;
    Reply::from(changed.answer)
}

// The suspicion of site `own` itself of a view, on the record that the host lends.
#[unsafe(no_mangle)]
pub extern "C" fn speckleewe_suspicion(
    views: &mut ViewRecord,
    roster: Roster,
    own: u8,
    view: View,
    out: &mut [u8],
) -> Reply
    ensures { suspicion_call views.old roster own view out.old (views_left result views.new) out.new }
{
    let suspected = viewchange::suspicion(roster, own, *views, view, out);
    *views = suspected.views;
    Reply::from(suspected.answer)
}

// A step of the acceptor of site `own` on the site that the host lends, in the view of its view-change record.
#[unsafe(no_mangle)]
pub extern "C" fn speckleewe_acceptor(
    site: &mut Site,
    roster: Roster,
    own: u8,
    line: &[u8],
    out: &mut [u8],
) -> Reply
    ensures { acceptor_call site.old roster own line.now out.old result site.new out.new }
{
    let views = site.views;
    let accepted = acceptor::step_in_place(roster, own, views, &mut site.acceptor, line, out);
    Reply::from(accepted)
}

// A step of the leader of site `own` on the state that the host lends.
#[unsafe(no_mangle)]
pub extern "C" fn speckleewe_leader(
    state: &mut leader::State,
    roster: Roster,
    own: u8,
    line: &[u8],
    out: &mut [u8],
) -> Reply
    ensures { leader_call state.old roster own line.now out.old result state.new out.new }
{
    let led = leader::step_in_place(roster, own, state, line, out);
    Reply::from(led)
}

// The opening of a ballot by the leader of site `own` on the state that the host lends.
#[unsafe(no_mangle)]
pub extern "C" fn speckleewe_open_ballot(
    state: &mut leader::State,
    roster: Roster,
    own: u8,
    opening: Opening,
    out: &mut [u8],
) -> Reply
    ensures { opening_call state.old roster own opening out.old result state.new out.new }
{
    let opened = leader::open_in_place(roster, own, state, opening.ballot, opening.fast, out);
    Reply::from(opened)
}

// A step of a learner on the state that the host lends.
#[unsafe(no_mangle)]
pub extern "C" fn speckleewe_learner(state: &mut State, roster: Roster, line: &[u8]) -> LearnerReply
    ensures { learner_call state.old roster line.now result state.new }
{
    let learned = learner::step_in_place(roster, state, line);
    LearnerReply::from(learned)
}
