// A case: its head, and the lists behind it.
ghost use Rattle.std.specs.Prelude.{◌≡◌, ◌+◌, ◌*◌, ◌<◌, ◌≤◌};

use crate::kinds;
use crate::kinds::{Kind, Unknown};
use crate::lines::Out;

// The head's bytes, and the most that a list may have.
const HEAD: usize = 24;

const MOST: usize = 600;

// One of a head's counts is beyond the limit.
#[derive(Clone, Copy)]
pub struct TooMany;

// The head: the kind, where its number is one of a kind, its option, and how many sizes, codes of A, codes of B and readings follow.
#[derive(Clone, Copy)]
pub struct Head {
    kind: Result<Kind, Unknown>,
    option: u32,
    ns: usize,
    na: usize,
    nb: usize,
    nr: usize,
    ghost sizes: { ns ≤ 600 },
    ghost codes_a: { na ≤ 600 },
    ghost codes_b: { nb ≤ 600 },
    ghost readings: { nr ≤ 600 },
}

impl Head {
    // The head of the case at the front of these bytes; none where they are not yet a whole head.
    pub fn of(bytes: &[u8]) -> Result<Option<Head>, TooMany> {
        if bytes.len() < HEAD {
            return Ok(None);
        }
        let mut list = [0u32; 6];
        read(bytes, &mut list);
        let [kind, option, ns, na, nb, nr] = list;
        if ns.max(na).max(nb.max(nr)) > MOST as u32 {
            return Err(TooMany);
        }
        Ok(Some(Head {
            kind: Kind::try_from(kind),
            option,
            ns: ns as usize,
            na: na as usize,
            nb: nb as usize,
            nr: nr as usize,
        }))
    }

    // How many bytes the case has.
    pub fn length(&self) -> usize
        ensures { result ≡ 24 + 4 * (self.now.ns + self.now.na + self.now.nb) + 8 * self.now.nr }
    {
        HEAD + 4 * (self.ns + self.na + self.nb) + 8 * self.nr
    }
}

// What a case's answer may use.
#[derive(Clone, Copy)]
pub struct Case<'a> {
    pub option: u32,
    pub sizes: &'a [u32],
    pub a: &'a [u32],
    pub b: &'a [u32],
    pub readings: &'a [f64],
}

// Answers the case at the front of these bytes, which has this head and is whole. A case that is not whole has no answer.
pub fn answer(out: &mut Out, bytes: &[u8], h: Head) {
    if bytes.len() < h.length() {
        return;
    }
    let to_a = h.ns + h.na;
    let n = to_a + h.nb;
    let behind = HEAD + 4 * n;
    let mut codes = [0u32; 3 * MOST];
    read(&bytes[HEAD..behind], &mut codes);
    let mut readings = [0.0; MOST];
    read(&bytes[behind..behind + 8 * h.nr], &mut readings);
    match h.kind {
        Ok(kind) => kinds::answer(
            out,
            kind,
            &Case {
                option: h.option,
                sizes: &codes[..h.ns],
                a: &codes[h.ns..to_a],
                b: &codes[to_a..n],
                readings: &readings[..h.nr],
            },
        ),
        Err(_) => out.put(b"unknown kind\n"),
    }
}

// A number of N bytes, the lowest first.
trait Stored<const N: usize>: Copy {
    fn of_bytes(bytes: [u8; N]) -> Self;
}

impl Stored<4> for u32 {
    fn of_bytes(bytes: [u8; 4]) -> u32 {
        u32::from_le_bytes(bytes)
    }
}

impl Stored<8> for f64 {
    fn of_bytes(bytes: [u8; 8]) -> f64 {
        float::float_of(u64::from_le_bytes(bytes))
    }
}

// The numbers that these bytes hold go to the first places of a list.
fn read<T: Stored<N>, const N: usize>(bytes: &[u8], list: &mut [T])
    requires { (0 < N) × (N ≤ 8) }
{
    let (numbers, _) = bytes.as_chunks::<N>();
    for (place, number) in list.iter_mut().zip(numbers) {
        *place = T::of_bytes(*number);
    }
}
