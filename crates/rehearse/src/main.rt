// Carries out a script of calls: reads lines from standard input, answers each, and says at the end where each run process stands.
#![tactic(auto)]

use mail::message::SILENCE;
use protocol::row::Row;
use rehearsal::player::Player;
use script::answers::Reply;
use std::io;
use std::io::{BufRead, BufReader, BufWriter, Write};
use steps::rows::new_row;

// The most processes, the places of the post, and the bytes that are read at once.
const ROWS: usize = 32;

const PLACES: usize = 256;

const PIECE: usize = 4096;

fn main(rt: HostRuntime) -> io::Result<()> {
    let heap = rt.alloc();
    let mut table = vec![in heap; new_row(0); ROWS]?;
    let mut post = vec![in heap; SILENCE; PLACES]?;
    let mut player = Player::new(heap);
    let mut input = BufReader::with_capacity(heap, PIECE, rt.stdin())?;
    let mut out = BufWriter::new(heap, rt.stdout())?;
    for _ in 0..u64::MAX {
        let piece = input.fill_buf()?;
        let read = piece.len();
        if read == 0 {
            break;
        }
        for byte in piece {
            let reply = player.take(heap, &mut table, &mut post, *byte)?;
            print(&mut out, reply)?;
        }
        // One who types sees each answer before more is read.
        out.flush()?;
        input.consume(read);
    }
    let reply = player.end(heap, &mut table, &mut post)?;
    print(&mut out, reply)?;
    for process in 0..32 {
        if let Some(standing) = player.standing(&table, &post, process) {
            writeln!(out, "{standing}")?;
        }
    }
    out.flush()
}

fn print<W: Write>(out: &mut W, reply: Option<Reply>) -> io::Result<()> {
    let Some(reply) = reply else {
        return Ok(());
    };
    writeln!(out, "{reply}")
}
