// The numbers of a committee that its calls change.
ghost use Rattle.std.specs.Prelude.{◌≡◌, ◌+◌, ◌<◌, length, slice_set};

use mail::message::Message;

#[derive(Clone, Copy, Default, PartialEq, Eq, Debug)]
pub struct Books {
    // How many messages are posted.
    pub count: u16,
    // How long the post was at the opening.
    pub span: u16,
}

impl Books {
    // Puts the message at the next place, and answers the place.
    pub(crate) fn append(&mut self, post: &mut [Message], message: Message) -> u16
        requires room { self.old.count < length post.old }
        requires span { length post.old ≡ self.old.span }
        ensures place { result ≡ self.old.count + 1 }
        ensures post { post.new ≡ slice_set post.old self.old.count message }
        ensures books { self.new ≡ record { count = self.old.count + 1; span = self.old.span } }
    {
        post[self.count as usize] = message;
        self.count += 1;
        self.count
    }
}
