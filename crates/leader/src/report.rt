// P1B: the reports of the sites, and on report N-f the proposal.
ghost use Rattle.std.specs.Prelude.{[], ◌≡◌, take, drop, Ok};
ghost use Rattle.refusal.specs.Rules.{answer};
ghost use Rattle.frame.specs.Format.{frame_with};
ghost use Rattle.leader.specs.Leader as spec;
ghost use Rattle.leader.specs.Code.Calls as calls;

use super::State;
use frame::Heading;
use refusal::{Answer, Refusal, given};
use roster::{Ballot, Roster};

// Whether a report is for the open classic ballot, the first from its site, and before N-f came.
#[tactic(auto, unfolding(crate::specs::Leader::awaited))]
fn awaited(r: Roster, s: &State, ballot: Ballot, site: u8) -> bool
    ensures { result ≡ spec.awaited r s.now ballot site }
{
    s.classic != 0
        && ballot == s.ballot
        && !roster::contains(s.reported, site)
        && !roster::reaches(s.reported, r.quorum())
}

// Whether a report's proof will not do: an empty proven history needs proven ballot 0 and mask 0, another N-f ones.
#[tactic(auto, unfolding(crate::specs::Leader::unfounded))]
fn unfounded(r: Roster, n: u8, proven_ballot: Ballot, mask: u16) -> bool
    ensures { result ≡ spec.unfounded r n proven_ballot mask }
{
    if n == 0 {
        !(proven_ballot.is_zero() && mask == 0)
    } else {
        roster::unproven(mask, r.n, r.quorum())
    }
}

// The answer to the heading of a P1B.
fn heading(r: Roster, s: &State, head: Heading) -> Answer
    ensures { result ≡ answer (spec.report_heading r s.now (frame_with head [])) }
{
    let unknown = r.n <= head.sender;
    let stale = !awaited(r, s, head.ballot, head.sender);
    let weak = unfounded(r, head.n, head.proven_ballot, head.mask);
    given(
        unknown,
        Refusal::Sender,
        given(stale, Refusal::Stale, given(weak, Refusal::Proof, Ok(()))),
    )
}

// The answer to a P1B with a proven and a held history: the heading, and then the two.
fn check(r: Roster, s: &State, head: Heading, proven: &[u64], held: &[u64]) -> Answer
    ensures { result ≡ answer (spec.p1b_rules r s.now (frame_with head []) proven.now held.now) }
{
    heading(r, s, head)?;
    content::reported(proven, held)
}

// The m words after the first n, or as many of them as there are.
fn after(words: &[u64], n: usize, m: usize) -> &[u64]
    ensures { result.now ≡ take m (drop n words.now) }
{
    history::first(words.get(n..).unwrap_or(&[]), m)
}

// On report N-f, proposes a history of the reports and of what is pending, and keeps pending what it does not hold. Before that, nothing. Answers the
// length of the line of its P2A, 0 where nothing goes out.
fn conclude(r: Roster, own: u8, s: &mut State, out: &mut [u8]) -> usize
    ensures { calls.Done (spec.conclude r own s.old) out.old (Ok result) s.new out.new }
{
    if !roster::reaches(s.reported, r.quorum()) {
        return 0;
    }
    let proposed = proposal::propose(
        words::LIMIT,
        s.proven.rows(),
        s.held.rows(),
        s.reported,
        r.n,
        s.pending.commands(),
    );
    let h = proposed.commands();
    s.pending = proposal::remaining(s.pending.commands(), h);
    site::send_if(
        !h.is_empty(),
        Heading {
            kind: frame::P2A,
            sender: own,
            view: s.view,
            ballot: s.ballot,
            ..Heading::default()
        },
        h,
        &[],
        out,
    )
}

// Takes a P1B whose words these are: stores its two histories, and proposes if it is report N-f.
pub(crate) fn take(
    r: Roster,
    own: u8,
    s: &mut State,
    head: Heading,
    words: &[u64],
    out: &mut [u8],
) -> Result<usize, Refusal>
    ensures { calls.Done (calls.taken_as spec.P1B r own s.old (frame_with head words.now)) out.old result s.new out.new }
{
    let proven = history::first(words, head.n as usize);
    let held = after(words, head.n as usize, head.m as usize);
    check(r, s, head, proven, held)?;
    s.reported = roster::with_site(s.reported, head.sender);
    s.proven.store(head.sender as usize, proven);
    s.held.store(head.sender as usize, held);
    Ok(conclude(r, own, s, out))
}
