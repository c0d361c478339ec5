// Scripts with their expected answers.
use mail::message::SILENCE;
use rehearsal::player::Player;
use script::answers::Reply;
use std::alloc::Global;
use std::process::Abort;
use std::test::Fail;
use steps::rows::new_row;

// A line, and its answer.
pub struct Line(pub &'static [u8], pub &'static str);

pub struct Script {
    pub lines: &'static [Line],
    // Where the run processes stand at the end.
    pub standings: &'static str,
}

// Plays each script on a committee of its own, and compares each answer.
pub fn play_all(rt: &impl Abort, heap: Global, scripts: &[Script]) -> Result<(), Fail> {
    for script in scripts {
        play(rt, heap, script)?;
    }
    Ok(())
}

fn play(rt: &impl Abort, heap: Global, script: &Script) -> Result<(), Fail> {
    let mut table = vec![in heap; new_row(0); 32]?;
    let mut post = vec![in heap; SILENCE; 256]?;
    let mut player = Player::new(heap);
    for line in script.lines {
        for byte in line.0 {
            let reply = player.take(heap, &mut table, &mut post, *byte)?;
            assert!(rt; reply.is_none());
        }
        let reply = player.take(heap, &mut table, &mut post, b'\n')?;
        assert!(rt; reply.is_some());
        let answer = format!(in heap; "{}", reply.unwrap_or(Reply::Wrong))?;
        assert_eq!(rt; answer.as_str(), line.1);
    }
    let mut standings = String::new(heap);
    for process in 0..32 {
        if let Some(standing) = player.standing(&table, &post, process) {
            let text = format!(in heap; "{standing}\n")?;
            standings.push_str(text.as_str())?;
        }
    }
    assert_eq!(rt; standings.as_str(), script.standings);
    Ok(())
}
