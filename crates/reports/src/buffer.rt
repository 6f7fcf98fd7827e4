// A text by value. It has an array, and how many of its bytes count, since a library of this project has no heap. The clause file's
// writer is another: one for both would be public and ask for room, and no public function of this project asks anything.
ghost use Rattle.std.specs.Prelude.{◌≤◌};

use network::Network;
use request::SWITCHES;

// The longest text has 121 bytes: "works 255 255", seven lines "6 255 255 255" and "sink 255", each with its newline.
#[derive(Clone, Copy)]
pub struct Text {
    pub bytes: [u8; 160],
    pub count: usize,
    ghost fits: { count ≤ 160 },
}

impl Text {
    ghost use Rattle.std.specs.Prelude.{◌≡◌, [], ◌∷◌, ◌+◌, ◌≤◌, ◌<◌, length};
    ghost use Rattle.prelude.specs.Blocks.{each};
    ghost use Rattle.request.specs.Numbers.{switches_most};
    ghost use Rattle.text.specs.Decimal.{decimal};
    ghost use Rattle.reports.specs.Texts.{shown, Added};
    ghost use Rattle.reports.specs.Reports.{number_text, switch_text, network_text};

    // The text of no bytes.
    pub(crate) fn new() -> Text
        ensures { (shown result ≡ []) × (result.count ≡ 0) }
    {
        Text {
            bytes: [0; 160],
            count: 0,
        }
    }

    // The bytes that count.
    pub fn as_slice(&self) -> &[u8]
        ensures { result.now ≡ shown self.now }
    {
        &self.bytes[..self.count]
    }

    // Adds the bytes of a word.
    pub(crate) fn put_word(&mut self, word: &[u8])
        requires { self.old.count + length word.now ≤ 160 }
        ensures { Added self.old word.now (length word.now) self.new }
    {
        let end = self.count + word.len();
        self.bytes[self.count..end].copy_from_slice(word);
        self.count = end;
    }

    // Adds one byte.
    fn put(&mut self, byte: u8)
        requires { self.old.count + 1 ≤ 160 }
        ensures { Added self.old (byte ∷ []) 1 self.new }
    {
        self.bytes[self.count] = byte;
        self.count += 1;
    }

    // Adds the digits of a number. Three at most, so straight code is plainer than the clause file's loop over digits.
    fn put_decimal(&mut self, x: u8)
        requires { self.old.count + 3 ≤ 160 }
        ensures { Added self.old (decimal x) 3 self.new }
    {
        let last = b'0' + x % 10;
        if x < 10 {
            self.put(last);
        } else if x < 100 {
            self.put(b'0' + x / 10);
            self.put(last);
        } else {
            self.put(b'0' + x / 100);
            self.put(b'0' + x / 10 % 10);
            self.put(last);
        }
    }

    // Adds a number, and a byte after it.
    pub(crate) fn put_number(&mut self, x: u8, after: u8)
        requires { self.old.count + 4 ≤ 160 }
        ensures { Added self.old (number_text x after) 4 self.new }
    {
        self.put_decimal(x);
        self.put(after);
    }

    // Adds the line of switch s.
    fn put_switch(&mut self, w: Network, s: u8)
        requires { (s < switches_most) × (self.old.count + 16 ≤ 160) }
        ensures { Added self.old (switch_text w s) 16 self.new }
    {
        let at = s as usize;
        self.put_number(s, b' ');
        self.put_number(w.literals[at], b' ');
        self.put_number(w.labels[2 * at + 1], b' ');
        self.put_number(w.labels[2 * at + 2], b'\n');
    }

    // Adds the lines of the switches below r.
    fn put_switches(&mut self, w: Network, r: u8)
        requires { (r ≤ switches_most) × (self.old.count + 112 ≤ 160) }
        ensures { Added self.old (each r (switch_text w)) 112 self.new }
    {
        for s in 0..r {
            self.put_switch(w, s);
        }
    }

    // Adds the lines of a network: of r switches, and of as many as there may be if r is above that.
    pub(crate) fn put_network(&mut self, w: Network)
        requires { self.old.count + 121 ≤ 160 }
        ensures { Added self.old (network_text w) 121 self.new }
    {
        let r = w.r.min(SWITCHES);
        self.put_switches(w, r);
        self.put_word(b"sink ");
        self.put_number(w.labels[2 * (r as usize) + 1], b'\n');
    }
}
