// What a place of a post reads as.
ghost use Rattle.std.specs.Prelude.{◌≡◌, ◌-◌, ◌&&◌, None, if◌then◌else◌, nat_le, slice_get};
ghost use Rattle.std.specs.Option.{option_copied};
ghost use Rattle.mail.specs.Readings.{read};

use crate::message::{Message, SILENCE};

// A post as it is read: the first `count` messages are posted, among `size` processes.
#[derive(Clone, Copy)]
pub struct Reading<'a> {
    pub post: &'a [Message],
    pub count: u16,
    pub size: u8,
}

impl<'a> Reading<'a> {
    // The message at `place`; SILENCE where there is none.
    pub fn at(&self, place: u16) -> &'a Message
        ensures { result.now ≡ read self.now place }
    {
        match self.posted(place) {
            Some(message) if message.is_proper(self.size) => message,
            _ => &SILENCE,
        }
    }

    // What stands at `place`, if anything was posted there.
    fn posted(&self, place: u16) -> Option<&'a Message>
        ensures { option_copied result ≡ (if nat_le 1 place && nat_le place self.now.count then slice_get self.now.post.now (place - 1) else None) }
    {
        if place > self.count {
            return None;
        }
        self.post.get((place as usize).checked_sub(1)?)
    }
}
