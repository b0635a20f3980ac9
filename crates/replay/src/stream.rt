// The stream: blocks of the input into a buffer, cases out of it, and answers into a second buffer, which is written when it is half full.
ghost use Rattle.std.specs.Prelude.{length, IfOk};
ghost use Rattle.replay.specs.Streams.{Inside};

use crate::cases;
use crate::cases::{Head, TooMany};
use crate::lines::Out;
use std::io::{Read, Stdin, Stdout};

// The bytes of each buffer.
pub const ROOM: usize = 65536;

// How much of the answers' buffer may be used before it is written. Every answer fits into the other half: the longest is that of a sheet, with 200 edits of three
// numbers, 512 places, 16 rows and three reports, and stays below 25,000 bytes.
const HALF: usize = ROOM / 2;

// The buffer's bytes from..to are read and not yet answered.
#[derive(Clone, Copy)]
pub struct Held {
    pub from: usize,
    pub to: usize,
}

// Why a stream goes on no longer. It is broken where a head is beyond the limits, a read failed, or a case is cut short.
#[derive(Clone, Copy)]
pub enum End {
    Whole,
    Broken,
}

impl From<TooMany> for End {
    fn from(_: TooMany) -> End {
        End::Broken
    }
}

// Nothing shows that an input ends, so the turns are counted down, from a number that no run uses up.
pub fn run(input: Stdin, output: Stdout, buffer: &mut [u8], mut out: Out) {
    let mut held = Held { from: 0, to: 0 };
    for _ in 0..u64::MAX {
        match turn(input, output, buffer, &mut out, held) {
            Ok(next) => held = next,
            Err(End::Whole) => break,
            Err(End::Broken) => {
                out.put(b"broken stream\n");
                break;
            }
        }
    }
    out.write(output, 0);
}

// One turn: answers the first case that is not yet answered, or reads on where it is not yet whole.
fn turn(
    input: Stdin,
    output: Stdout,
    buffer: &mut [u8],
    out: &mut Out,
    held: Held,
) -> Result<Held, End>
    requires { Inside held (length buffer.old) }
    ensures { IfOk result (λ next. Inside next (length buffer.old)) }
{
    let part = &buffer[held.from..held.to];
    let whole = Head::of(part)?.filter(|h| h.length() <= part.len());
    let Some(h) = whole else {
        return read_on(input, buffer, held);
    };
    cases::answer(out, part, h);
    out.write(output, HALF);
    Ok(Held {
        from: held.from + h.length(),
        to: held.to,
    })
}

// Reads once, behind the bytes that are not yet answered, which move to the front of the buffer first. Where nothing more comes, the
// stream ends there, and is broken if a case has begun.
fn read_on(input: Stdin, buffer: &mut [u8], held: Held) -> Result<Held, End>
    requires { Inside held (length buffer.old) }
    ensures { IfOk result (λ next. Inside next (length buffer.old)) }
{
    let rest = held.to - held.from;
    buffer.copy_within(held.from..held.to, 0);
    match (&input).read(&mut buffer[rest..]) {
        Ok(count) if count > 0 => Ok(Held {
            from: 0,
            to: rest + count,
        }),
        Ok(_) if rest == 0 => Err(End::Whole),
        _ => Err(End::Broken),
    }
}
