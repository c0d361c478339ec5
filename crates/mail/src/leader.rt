// The leader of a view.
ghost use Rattle.std.specs.Prelude.{◌≡◌};
ghost use Rattle.mail.specs.Leaders.{leader_of, leads};

// Among `size` processes view v above 0 is led by process (v - 1) mod `size`. View 0 has no leader.
pub fn leader(size: u8, view: u32) -> Option<u8>
    ensures { result ≡ leader_of size view }
{
    if size == 0 || view == 0 {
        return None;
    }
    Some(((view - 1) % size as u32) as u8)
}

pub fn is_leader(size: u8, view: u32, process: u8) -> bool
    ensures { result ≡ leads size view process }
{
    leader(size, view) == Some(process)
}
