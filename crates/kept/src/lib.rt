// A reader of a sheet that arrives in parts, as eight numbers that its caller keeps between two of them
// (docs/RULES.md, "A sheet in parts"). Zeros are a reader before the first byte, and any numbers at all are
// some reader.
#![tactic(auto)]

ghost use Rattle.std.specs.Prelude.{◌≡◌};
ghost use Rattle.kept.specs.Numbers.{digest_of, three_of, reader_of, numbers_of};

use parts::{Reader, Standing};
use sheets::{Cursor, Digest, Fault};

// Stages are numbers, and not an enum, since C keeps them. That of a reader that met no fault is that of its line's
// digest, which is 0 where nothing came of it.
const FIRST: u64 = 1;

const AFTER_SPACE: u64 = 2;

const SECOND: u64 = 3;

const BAD: u64 = 4;

// A fault was met: by 6, and by 7, for which any number above stands too.
const MALFORMED: u64 = 5;

const TOO_LONG: u64 = 6;

// A digest: its stage, and its numbers where it has some.
#[derive(Clone, Copy)]
struct Three {
    stage: u64,
    first: u64,
    second: u64,
}

impl From<Digest> for Three {
    ghost from_gives = { λ digest three. three ≡ three_of digest };

    fn from(digest: Digest) -> Three {
        match digest {
            Digest::Empty => Three {
                stage: 0,
                first: 0,
                second: 0,
            },
            Digest::First(first) => Three {
                stage: FIRST,
                first,
                second: 0,
            },
            Digest::AfterSpace(first) => Three {
                stage: AFTER_SPACE,
                first,
                second: 0,
            },
            Digest::Second { first, second } => Three {
                stage: SECOND,
                first,
                second,
            },
            Digest::Bad => Three {
                stage: BAD,
                first: 0,
                second: 0,
            },
        }
    }
}

fn digest_at(stage: u64, first: u64, second: u64) -> Digest
    ensures { result ≡ digest_of stage first second }
{
    match stage {
        0 => Digest::Empty,
        FIRST => Digest::First(first),
        AFTER_SPACE => Digest::AfterSpace(first),
        SECOND => Digest::Second { first, second },
        _ => Digest::Bad,
    }
}

// The numbers that a reader is kept in.
pub fn numbers(reader: Reader) -> [u64; 8]
    ensures { result ≡ numbers_of reader }
{
    match reader {
        Ok(standing) => {
            let cursor = standing.cursor;
            let digest = standing.digest;
            let three = Three::from(digest);
            [
                three.stage,
                three.first,
                three.second,
                cursor.begun,
                cursor.left,
                cursor.place as u64,
                standing.held as u64,
                standing.state_lines,
            ]
        }
        Err(Fault::Malformed { place }) => [MALFORMED, 0, 0, 0, 0, place as u64, 0, 0],
        Err(Fault::TooLong) => [TOO_LONG, 0, 0, 0, 0, 0, 0, 0],
    }
}

// The reader that numbers keep.
pub fn reader(numbers: &[u64; 8]) -> Reader
    ensures { result ≡ reader_of numbers.now }
{
    let [stage, first, second, begun, left, place, held, state_lines] = *numbers;
    let place = place as usize;
    if MALFORMED < stage {
        return Err(Fault::TooLong);
    }
    if stage == MALFORMED {
        return Err(Fault::Malformed { place });
    }
    Ok(Standing {
        cursor: Cursor { begun, left, place },
        digest: digest_at(stage, first, second),
        held: held as usize,
        state_lines,
    })
}
