// A script that is read byte by byte.
ghost use Rattle.std.specs.Prelude.{◌≡◌, [], None};
ghost use Rattle.std.specs.Option.{option_map};
ghost use Rattle.rehearsal.specs.Playing.{Makes, answered_line, ended, heard, scene_of, stage_of, standing_at};

use crate::rehearsal::Rehearsal;
use mail::message::Message;
use protocol::row::Row;
use script::answers::Reply;
use script::lines::read_request;
use script::pending::Pending;
use script::standing::Standing;
use std::alloc::{AllocError, Global};

#[derive(Drop)]
pub struct Player {
    rehearsal: Rehearsal,
    // The line so far.
    line: Pending,
}

impl Player {
    pub fn new(heap: Global) -> Self
        ensures stage { result.rehearsal.committee ≡ None }
        ensures line { result.line.bytes.items ≡ [] }
    {
        Player {
            rehearsal: Rehearsal::new(),
            line: Pending::new(heap),
        }
    }

    // Takes one byte more. A line feed ends the line, which is then answered.
    pub fn take(
        &mut self,
        heap: Global,
        table: &mut [Row],
        post: &mut [Message],
        byte: u8,
    ) -> Result<Option<Reply>, AllocError>
        ensures { let was = scene_of self.old table.old post.old in Makes result was (heard was.stage was.table was.post was.line byte) (scene_of self.new table.new post.new) }
    {
        if byte == b'\n' {
            return self.answer(heap, table, post);
        }
        self.line.push(byte)?;
        Ok(None)
    }

    // The end of the script: answers what stands after the last line feed, if anything does.
    pub fn end(
        &mut self,
        heap: Global,
        table: &mut [Row],
        post: &mut [Message],
    ) -> Result<Option<Reply>, AllocError>
        ensures { let was = scene_of self.old table.old post.old in Makes result was (ended was.stage was.table was.post was.line) (scene_of self.new table.new post.new) }
    {
        if self.line.is_empty() {
            return Ok(None);
        }
        self.answer(heap, table, post)
    }

    // Answers the line, and begins the next.
    fn answer(
        &mut self,
        heap: Global,
        table: &mut [Row],
        post: &mut [Message],
    ) -> Result<Option<Reply>, AllocError>
        ensures { let was = scene_of self.old table.old post.old in Makes result was (answered_line was.stage was.table was.post was.line) (scene_of self.new table.new post.new) }
    {
        let request = read_request(heap, self.line.as_slice())?;
        self.line.clear();
        Ok(Some(self.rehearsal.reply(table, post, request)))
    }

    // Where a run process stands.
    pub fn standing(&self, table: &[Row], post: &[Message], process: u8) -> Option<Standing>
        ensures { result ≡ standing_at (option_map stage_of self.now.rehearsal.committee) table.now post.now process }
    {
        self.rehearsal.standing(table, post, process)
    }
}
