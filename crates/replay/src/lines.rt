// How the lines of an answer are put. A form is their text: in it a digit stands for a space and that double, as 16 hex digits, `A`, `B` and `C` for a space
// and the first, second and third count, and `@` for all doubles, each after a space. What does not fit into the buffer is left out.
// A form is no `write!`: `text` puts the numbers, and proves their bytes. With `write!` each number would be wrapped in a type whose `Display` calls `text`.
use base::Refusal;
use std::io::{Print, Stdout};

// Memory is fixed and nothing is on a heap: the bytes have beside them how many are used.
// The answers that are not yet written, in the front of a buffer.
#[derive(Drop)]
pub struct Out<'a> {
    bytes: &'a mut [u8],
    used: usize,
}

impl<'a> Out<'a> {
    pub fn new(bytes: &'a mut [u8]) -> Out<'a> {
        Out { bytes, used: 0 }
    }

    pub fn put(&mut self, src: &[u8]) {
        self.used = text::put(self.bytes, self.used, src);
    }

    // A space and a double.
    pub fn double(&mut self, x: f64) {
        self.put(b" ");
        self.used = text::put_hex(self.bytes, self.used, float::bits_of(x));
    }

    // A space and a count.
    pub fn count(&mut self, n: u64) {
        self.put(b" ");
        self.used = text::put_decimal(self.bytes, self.used, n);
    }

    // All doubles, each after a space.
    pub fn each(&mut self, doubles: &[f64]) {
        for x in doubles {
            self.double(*x);
        }
    }

    // A form with its counts and doubles.
    pub fn form(&mut self, form: &[u8], counts: &[u64], doubles: &[f64]) {
        for b in form {
            self.letter(*b, counts, doubles);
        }
    }

    // A form with the first n of a list of doubles; nothing where there are not as many.
    pub fn firsts(&mut self, form: &[u8], n: usize, doubles: &[f64]) {
        if let Some(first) = doubles.get(..n) {
            self.form(form, &[], first);
        }
    }

    // A form with the number of a refusal, or of none, and its details.
    pub fn verdict(&mut self, form: &[u8], r: Refusal) {
        self.form(form, &[r.number as u64, r.first, r.second], &[]);
    }

    // The line of a refusal.
    pub fn refused(&mut self, r: Refusal) {
        self.verdict(b"refusedABC\n", r);
    }

    pub fn bad_case(&mut self) {
        self.put(b"bad case\n");
    }

    // A letter of a form, or what it stands for.
    fn letter(&mut self, b: u8, counts: &[u64], doubles: &[f64]) {
        match b {
            b'@' => self.each(doubles),
            b'0'..=b'9' => {
                if let Some(x) = doubles.get((b - b'0') as usize) {
                    self.double(*x);
                }
            }
            b'A'..=b'C' => {
                if let Some(n) = counts.get((b - b'A') as usize) {
                    self.count(*n);
                }
            }
            _ => self.put(&[b]),
        }
    }

    // Writes the answers once they have come to `least` bytes.
    pub fn write(&mut self, output: Stdout, least: usize) {
        if self.used < least {
            return;
        }
        let used = self.used;
        if let Some(answers) = self.bytes.get(..used) {
            let _ = output.write_all(answers);
        }
        self.used = 0;
    }
}
