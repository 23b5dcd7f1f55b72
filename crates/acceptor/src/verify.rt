// VERIFY: it is stored, and if a quorum of sites verified its history, that is proven.
ghost use Rattle.std.specs.Prelude.{false, [], ◌≡◌, ◌≤◌, length, Ok};
ghost use Rattle.words.specs.Sizes.{capacity};
ghost use Rattle.roster.specs.Sites.{mask_to};
ghost use Rattle.content.specs.Content.{contradicts};
ghost use Rattle.table.specs.Table.{row_of, stored_at};
ghost use Rattle.refusal.specs.Rules.{answer};
ghost use Rattle.frame.specs.Format.{frame_with};
ghost use Rattle.site.specs.Reply as reply;
ghost use Rattle.acceptor.specs.Acceptor as spec;
ghost use Rattle.acceptor.specs.Code.Effects as effects;

use super::State;
use frame::Heading;
use refusal::{Answer, Refusal, given};
use roster::{Roster, View};
use table::Table;

// The answer to the heading.
fn check_heading(r: Roster, view: View, s: &State, head: Heading) -> Answer
    ensures { result ≡ answer (spec.verify_heading r view s.now (frame_with head [])) }
{
    let unknown = r.n <= head.sender;
    let stale = !(head.view == view && head.ballot == s.ballot);
    given(
        unknown,
        Refusal::Sender,
        given(stale, Refusal::Stale, Ok(())),
    )
}

// The answer to a VERIFY: the heading, then the commands, then the sender's entry.
pub(crate) fn check(r: Roster, view: View, s: &State, head: Heading, h: &[u64]) -> Answer
    requires { length h.now ≤ capacity }
    ensures { result ≡ answer (spec.verify_rules r view s.now (frame_with head []) h.now) }
{
    check_heading(r, view, s, head)?;
    content::ordered(h)?;
    let clash = content::contradicts(s.verified.row(head.sender as usize), h);
    given(clash, Refusal::Contradiction, Ok(()))
}

// The mask of the sites below n whose entry is h.
fn certify(verified: &Table, n: u8, h: &[u64]) -> u16
    requires { n ≤ 16 }
    ensures { result ≡ mask_to n (spec.matches verified.now h.now) }
{
    let mut mask: u16 = 0;
    for i in 0..n {
        if history::same(verified.row(i as usize), h) {
            mask = roster::with_site(mask, i);
        }
    }
    mask
}

// Whether h, which the sites of the mask verified, becomes proven.
fn convinces(r: Roster, s: &State, mask: u16, h: &[u64]) -> bool
    requires { length h.now ≤ capacity }
    ensures { result ≡ spec.convinces r s.now mask h.now }
{
    let proven = s.proven.commands();
    roster::reaches(mask, r.quorum())
        && (history::extends(h, proven)
            && !(history::same(proven, h) && s.proven_ballot == s.ballot))
}

// Stores h as the entry of a site. If that makes it proven, a P2B goes out.
fn store(r: Roster, own: u8, s: &mut State, site: u8, h: &[u64], out: &mut [u8]) -> usize
    requires { (r.n ≤ 16) × (length h.now ≤ capacity) }
    ensures { effects.Done (spec.store r own s.old (stored_at s.old.verified site h.now) h.now) out.old (reply.outcome (Ok result) s.new) out.new }
{
    s.verified.store(site as usize, h);
    let mask = certify(&s.verified, r.n, h);
    if !convinces(r, s, mask, h) {
        return 0;
    }
    s.proven.set(h);
    s.proven_ballot = s.ballot;
    s.certificate = mask;
    let vote = Heading {
        kind: frame::P2B,
        sender: own,
        ballot: s.ballot,
        mask,
        ..Heading::default()
    };
    site::send(vote, h, &[], out)
}

// Stores h as the entry of a site if it extends the present one, which it does if it is not shorter, since neither contradicts the other; else
// nothing is done.
pub(crate) fn perform(
    r: Roster,
    own: u8,
    s: &mut State,
    site: u8,
    h: &[u64],
    out: &mut [u8],
) -> usize
    requires { (r.n ≤ 16) × (length h.now ≤ capacity) × (contradicts (row_of s.old.verified site) h.now ≡ false) }
    ensures { effects.Done (spec.verifying r own s.old site h.now) out.old (reply.outcome (Ok result) s.new) out.new }
{
    if h.len() < s.verified.row(site as usize).len() {
        return 0;
    }
    store(r, own, s, site, h, out)
}
