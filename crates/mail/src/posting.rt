// Which messages a foreign process may post.
ghost use Rattle.std.specs.Prelude.{◌≡◌};
ghost use Rattle.mail.specs.Posting.{bare, citable, well_formed, citable_at};

use crate::kind::Kind;
use crate::message::Message;

impl Message {
    // Whether it may be posted among `size` processes after `count` messages.
    pub fn is_well_formed(&self, size: u8, count: u16) -> bool
        ensures { result ≡ well_formed size count self.now }
    {
        let Ok(kind) = Kind::try_from(self.kind) else {
            return false;
        };
        match kind {
            _ if self.view == 0 => false,
            Kind::Wish if self.value == 0 && self.locked == 0 => self.cites_nothing(),
            Kind::NewLeader if self.locked != 0 => self.cites_posted(size, count),
            Kind::NewLeader if self.value == 0 => self.cites_nothing(),
            Kind::Propose if self.locked == 0 => self.cites_posted(size, count),
            Kind::Prepared | Kind::Committed if self.locked == 0 => self.cites_nothing(),
            _ => false,
        }
    }

    fn cites_nothing(&self) -> bool
        ensures { result ≡ bare self.now.citations 32 }
    {
        self.citations.iter().all(|place| *place == 0)
    }

    fn cites_posted(&self, size: u8, count: u16) -> bool
        ensures { result ≡ citable size count self.now.citations 32 }
    {
        self.citations
            .iter()
            .enumerate()
            .all(|(slot, place)| is_citable(size, count, slot, *place))
    }
}

fn is_citable(size: u8, count: u16, slot: usize, place: u16) -> bool
    ensures { result ≡ citable_at size count slot place }
{
    place == 0 || slot < size as usize && place <= count
}
