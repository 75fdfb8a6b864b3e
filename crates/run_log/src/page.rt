ghost use Rattle.std.specs.Prelude.{◌≡◌, ◌+◌, ◌<◌, ◌≤◌, [], ◌∷◌, ◌++◌, length, OnOk, OnErr, IsErr};
ghost use Rattle.std.specs.Fmt.{decimal};
ghost use Rattle.flat_model.specs.Text.{hex_digit, hex_word};
ghost use Rattle.io_edge.specs.Counts.{IsCounted};
ghost use Rattle.io_edge.specs.Written.{Wrote, WrotePart};

use io_edge::{Sink, WriteErr, write_all};
use std::marker::Model;

// How many bytes a page holds.
const PAGE: usize = 4096;

// How many bytes a line has at most.
const LINE: usize = 256;

/// What was printed and is not yet written: at most 4,096 bytes, which contracts see as their list.
/// A printer makes room for a line, pushes the line, and flushes the page after the last one.
/// Bytes past the length stay as they are, so that a page is cleared at no cost.
#[derive(Drop)]
pub struct Page {
    bytes: [u8; PAGE],
    len: usize,
}

impl Model for Page {
    ghost use Rattle.std.specs.Prelude.{◌≤◌, List, ℕ, take};
    ghost use Rattle.std.specs.Coded.{coded_list, coded_ℕ};
    ghost use Rattle.run_log.specs.declared.page.TheConstants.{PAGE};

    ghost Value = { List ℕ };

    ghost coded = { coded_list coded_ℕ };

    ghost view = { λ page. take page.len page.bytes };

    ghost invariant = { λ page. page.len ≤ PAGE };
}

impl Page {
    /// An empty page.
    pub fn new() -> Page
        ensures { result ≡ [] }
    {
        Page {
            bytes: [0; PAGE],
            len: 0,
        }
    }

    /// What was printed.
    pub fn as_slice(&self) -> &[u8]
        ensures { result.now ≡ self.now }
    {
        &self.bytes[..self.len]
    }

    /// Drops what was printed.
    pub fn clear(&mut self)
        ensures { self.new ≡ [] }
    {
        self.len = 0;
    }

    /// Prints one byte.
    pub fn push_byte(&mut self, byte: u8)
        requires { length self.old < PAGE }
        ensures text { self.new ≡ self.old ++ byte ∷ [] }
        ensures long { length self.new ≡ length self.old + 1 }
    {
        // Read once, since a compiler cannot tell that the store leaves the length alone.
        let len = self.len;
        self.bytes[len] = byte;
        self.len = len + 1;
    }

    /// Ends a line.
    pub fn end_line(&mut self)
        requires { length self.old < PAGE }
        ensures text { self.new ≡ self.old ++ 10 ∷ [] }
        ensures long { length self.new ≡ length self.old + 1 }
    {
        self.push_byte(b'\n');
    }

    /// Prints bytes as they are.
    pub fn push_bytes(&mut self, bytes: &[u8])
        requires { length self.old + length bytes.now ≤ PAGE }
        ensures text { self.new ≡ self.old ++ bytes.now }
        ensures long { length self.new ≡ length self.old + length bytes.now }
    {
        let len = self.len;
        let end = len + bytes.len();
        self.bytes[len..end].copy_from_slice(bytes);
        self.len = end;
    }

    /// Prints a word whose length is known when it is compiled, so that its bytes become one or two
    /// stores.
    pub fn push_word<const N: usize>(&mut self, word: &[u8; N])
        requires { length self.old + length word.now ≤ PAGE }
        ensures text { self.new ≡ self.old ++ word.now }
        ensures long { length self.new ≡ length self.old + length word.now }
    {
        for byte in word {
            self.push_byte(*byte);
        }
    }

    /// Prints a number in decimal.
    #[tactic(auto, using(std::proofs::lemmas::Fmt::decimal_digit, crate::proofs::DecimalLemmas::decimal_short))]
    pub fn push_decimal(&mut self, n: u32)
        requires { length self.old + 10 ≤ PAGE }
        ensures text { self.new ≡ self.old ++ decimal n }
        ensures long { length self.new ≤ length self.old + 10 }
    {
        // Most numbers of a log have one digit.
        if n < 10 {
            self.push_byte(b'0' + n as u8);
        } else {
            self.push_digits(n);
        }
    }

    // Prints the digits of a number, the last of them last.
    #[tactic(auto, using(std::proofs::lemmas::Fmt::decimal_digit, crate::proofs::DecimalLemmas::decimal_ends, crate::proofs::DecimalLemmas::decimal_longer))]
    fn push_digits(&mut self, n: u32)
        requires { length self.old + length (decimal n) ≤ PAGE }
        ensures text { self.new ≡ self.old ++ decimal n }
        ensures long { length self.new ≡ length self.old + length (decimal n) }
    {
        if n < 10 {
            self.push_byte(b'0' + n as u8);
        } else {
            self.push_digits(n / 10);
            self.push_byte(b'0' + (n % 10) as u8);
        }
    }

    /// Prints a number as `0x` and eight hexadecimal digits.
    #[tactic(auto, unfolding(flat_model::specs::Text::hex_word))]
    pub fn push_hex(&mut self, n: u32)
        requires { length self.old + 10 ≤ PAGE }
        ensures text { self.new ≡ self.old ++ hex_word n }
        ensures long { length self.new ≡ length self.old + 10 }
    {
        let b = n / 16;
        let c = b / 16;
        let d = c / 16;
        let e = d / 16;
        let f = e / 16;
        let g = f / 16;
        let h = g / 16;
        self.push_word(&[
            b'0',
            b'x',
            hex_digit(h % 16),
            hex_digit(g % 16),
            hex_digit(f % 16),
            hex_digit(e % 16),
            hex_digit(d % 16),
            hex_digit(c % 16),
            hex_digit(b % 16),
            hex_digit(n % 16),
        ]);
    }

    /// Makes room for a line of at most 256 bytes: writes the page where there is too little.
    pub fn make_room<K: Sink>(&mut self, sink: &mut K) -> Result<(), WriteErr>
        ensures ok { OnOk result
            (Wrote (K.written sink.old) (K.written sink.new) self.old self.new) }
        ensures room { OnOk result (length self.new + LINE ≤ PAGE) }
        ensures err { OnErr result (WrotePart (K.written sink.old) (K.written sink.new) self.old) }

        // It fails exactly where a write failed, which is counted once.
        ensures faults { IsCounted (IsErr result) (K.faults sink.old) (K.faults sink.new) }
    {
        if self.len > PAGE - LINE {
            self.flush(sink)
        } else {
            Ok(())
        }
    }

    /// Writes what was printed.
    pub fn flush<K: Sink>(&mut self, sink: &mut K) -> Result<(), WriteErr>
        ensures ok { OnOk result
            (Wrote (K.written sink.old) (K.written sink.new) self.old self.new) }
        ensures empty { OnOk result (self.new ≡ []) }
        ensures err { OnErr result (WrotePart (K.written sink.old) (K.written sink.new) self.old) }

        // It fails exactly where a write failed, which is counted once.
        ensures faults { IsCounted (IsErr result) (K.faults sink.old) (K.faults sink.new) }
    {
        write_all(sink, self.as_slice())?;
        self.len = 0;
        Ok(())
    }
}

// The character of a hexadecimal digit.
fn hex_digit(digit: u32) -> u8
    requires { digit < 16 }
    ensures { result ≡ hex_digit digit }
{
    if digit < 10 {
        b'0' + digit as u8
    } else {
        b'A' - 10 + digit as u8
    }
}
