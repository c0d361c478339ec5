// One number of a line, byte by byte.
ghost use Rattle.std.specs.Prelude.{◌≡◌, ◌+◌, ◌*◌, ◌^◌};
ghost use Rattle.numerals.specs.Fields.{next, ended, longer};

// What has been read of a number. No Option of one: a field that is 0 takes no digit, and any other number does.
#[derive(Clone, Copy, PartialEq, Eq, Debug)]
pub enum Field {
    Empty,
    // The digit 0, which no digit may follow.
    Zero,
    // Digits of which the first is not 0.
    Number(u64),
}

// What a byte makes of it.
#[derive(Clone, Copy, PartialEq, Eq, Debug)]
pub enum Step {
    Read(Field),
    // A space: the number is whole.
    Ended(u64),
}

impl Field {
    // None where no number goes on like this, or none below 2^64.
    pub fn next(self, byte: u8) -> Option<Step>
        ensures { result ≡ next self byte }
    {
        match (self, byte) {
            (Field::Empty, b'0') => Some(Step::Read(Field::Zero)),
            (Field::Empty, b'1'..=b'9') => Some(Step::Read(Field::Number((byte - b'0') as u64))),
            (Field::Zero, b' ') => Some(Step::Ended(0)),
            (Field::Number(n), b' ') => Some(Step::Ended(n)),
            (Field::Number(n), b'0'..=b'9') => lengthen(n, byte - b'0'),
            _ => None,
        }
    }

    // The number, where the line ends here.
    pub fn end(self) -> Option<u64>
        ensures { result ≡ ended self }
    {
        match self {
            Field::Empty => None,
            Field::Zero => Some(0),
            Field::Number(n) => Some(n),
        }
    }
}

// One digit more.
fn lengthen(n: u64, digit: u8) -> Option<Step>
    ensures { result ≡ longer n digit }
{
    let longer = n.checked_mul(10)?.checked_add(digit as u64)?;
    Some(Step::Read(Field::Number(longer)))
}
