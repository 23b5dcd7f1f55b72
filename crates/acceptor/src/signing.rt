// Signing a history, which P2A and PROPOSE do.
ghost use Rattle.std.specs.Prelude.{◌≡◌, ◌≤◌, length, Ok};
ghost use Rattle.words.specs.Sizes.{capacity};
ghost use Rattle.site.specs.Reply as reply;
ghost use Rattle.acceptor.specs.Acceptor as spec;
ghost use Rattle.acceptor.specs.Code.Effects as effects;

use super::State;
use frame::Heading;
use site::ViewRecord;

// Signs h: it becomes held and the own entry, and a VERIFY goes out.
pub(crate) fn perform(own: u8, v: ViewRecord, s: &mut State, h: &[u64], out: &mut [u8]) -> usize
    requires { length h.now ≤ capacity }
    ensures { effects.Done (spec.sign own v s.old h.now) out.old (reply.outcome (Ok result) s.new) out.new }
{
    s.held.set(h);
    s.signed = 1;
    s.verified.store(own as usize, h);
    let verify = Heading {
        kind: frame::VERIFY,
        sender: own,
        view: v.view,
        ballot: s.ballot,
        ..Heading::default()
    };
    site::send(verify, h, &[], out)
}
