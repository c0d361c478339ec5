// A theorem about lines.
ghost use Rattle.script.specs.Lines.{KeptEnough};

// What is kept of a line that is read byte by byte asks for what the whole line asks for.
pub fn pending_lines_stand()
    ensures { KeptEnough }
{}
