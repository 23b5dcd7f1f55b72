// A site: whether its roster, own number and lent buffer will do; the view-change record; and making and handing over the frame that it sends.
#![tactic(auto)]

ghost use Rattle.std.specs.Prelude.{◌≡◌, take};
ghost use Rattle.words.specs.Sizes.{capacity};
ghost use Rattle.site.specs.Site as spec;
ghost use Rattle.site.specs.Reply as reply;
ghost use Rattle.site.specs.Message as message;

use frame::Heading;
use roster::{Roster, View};

// The view-change record, lent by the host.
#[repr(C)]
#[derive(Clone, Copy)]
pub struct ViewRecord {
    // The view that the site is in.
    pub view: View,
    // The sites that suspect it.
    pub suspicions: u16,
    // The view to change to; 0 means none.
    pub target: View,
    // The target mask: the sites that change to the target.
    pub changes: u16,
}

impl ViewRecord {
    // A fresh record: view 0, no suspicion, no target.
    pub fn fresh() -> ViewRecord
        ensures { result ≡ spec.fresh }
    {
        ViewRecord {
            view: View(0),
            suspicions: 0,
            target: View(0),
            changes: 0,
        }
    }

    // Whether neither mask has a bit at n or above.
    pub fn is_valid(self, n: u8) -> bool
        ensures { result ≡ spec.valid_record n self }
    {
        !roster::beyond(self.suspicions, n) & !roster::beyond(self.changes, n)
    }
}

// Whether the figures are a roster's, the own number is one of its sites, and the room is enough for the longest line.
pub fn seated(r: Roster, own: u8, room: usize) -> bool
    ensures { result ≡ spec.seated r own room }
{
    r.valid() & ((own < r.n) & (frame::LONGEST <= room))
}

// Writes the frame of this heading and these two lists, the lists cut to what there is room for, at the front of the buffer, and answers the length
// of its line. The heading's counts are not looked at: they are those of the lists.
pub fn send(head: Heading, g: &[u64], h: &[u64], out: &mut [u8]) -> usize
    ensures { reply.Handed (reply.sends (message.message head.kind head.sender head.view head.ballot head.proven_ballot head.mask (take capacity g.now) (take capacity h.now))) result out.old out.new }
{
    let one = words::first(g, words::CAPACITY);
    let two = words::first(h, words::CAPACITY);
    let n = one.len() as u8;
    let m = two.len() as u8;
    frame::write_from(Heading { n, m, ..head }, one, two, out)
}

// The same, if the frame is to be sent. If not, nothing is written, and the length is 0.
pub fn send_if(sent: bool, head: Heading, g: &[u64], h: &[u64], out: &mut [u8]) -> usize
    ensures { reply.Handed (reply.sends_if sent (message.message head.kind head.sender head.view head.ballot head.proven_ballot head.mask (take capacity g.now) (take capacity h.now))) result out.old out.new }
{
    if !sent {
        return 0;
    }
    send(head, g, h, out)
}
