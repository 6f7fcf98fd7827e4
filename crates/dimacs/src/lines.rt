// Decimal numbers, signed numbers and lines of them as text, written into a lent buffer.
//
// A writer promises `Wrote`: the text stands from the place on, the place is moved behind it, and every other byte of the buffer is
// as it was. Numbers are written in parts of one to four digits, so that a request's variables, below 10000, are one part.
ghost use Rattle.std.specs.Prelude.{[], ◌∷◌, ◌<◌, length};
ghost use Rattle.prelude.specs.Signed.{is_negative};
ghost use Rattle.text.specs.Decimal.{decimal, padded};
ghost use Rattle.text.specs.Text.{sign_text, number_text};
ghost use Rattle.dimacs.specs.Block.{numbers_line};
ghost use Rattle.dimacs.specs.Cursor.{Room, Puts};

// A lent buffer, and the place where writing goes on.
#[derive(Drop)]
pub(crate) struct Cursor<'a> {
    pub(crate) buffer: &'a mut [u8],
    pub(crate) at: usize,
}

impl Cursor<'_> {
    // Writes one byte.
    pub(crate) fn put(&mut self, byte: u8)
        requires { Room self.old 1 }
        ensures { Puts self.old (byte ∷ []) self.new }
    {
        self.buffer[self.at] = byte;
        self.at += 1;
    }

    // Writes a word.
    pub(crate) fn put_word(&mut self, word: &[u8])
        requires { Room self.old (length word.now) }
        ensures { Puts self.old word.now self.new }
    {
        let end = self.at + word.len();
        self.buffer[self.at..end].copy_from_slice(word);
        self.at = end;
    }

    // Writes the last N digits of x, with leading zeros.
    fn put_digits<const N: usize>(&mut self, x: u32)
        requires { Room self.old N }
        ensures { Puts self.old (padded N x) self.new }
    {
        let mut digits = [0u8; N];
        let mut rest = x;
        for i in 0..N {
            digits[N - 1 - i] = b'0' + (rest % 10) as u8;
            rest /= 10;
        }
        self.put_word(&digits);
    }

    // Writes the digits of a number below 10000.
    fn put_small(&mut self, x: u32)
        requires { (x < 10000) × Room self.old (length (decimal x)) }
        ensures { Puts self.old (decimal x) self.new }
    {
        match x {
            0..=9 => self.put_digits::<1>(x),
            10..=99 => self.put_digits::<2>(x),
            100..=999 => self.put_digits::<3>(x),
            _ => self.put_digits::<4>(x),
        }
    }

    // Writes the digits of x.
    pub(crate) fn put_decimal(&mut self, x: u32)
        requires { Room self.old (length (decimal x)) }
        ensures { Puts self.old (decimal x) self.new }
    {
        if x < 10000 {
            self.put_small(x);
            return;
        }
        let high = x / 10000;
        if high < 10000 {
            self.put_small(high);
        } else {
            self.put_small(high / 10000);
            self.put_digits::<4>(high % 10000);
        }
        self.put_digits::<4>(x % 10000);
    }

    // Writes the minus of a negative number.
    fn put_sign(&mut self, x: i32)
        requires { Room self.old (length (sign_text (is_negative x))) }
        ensures { Puts self.old (sign_text (is_negative x)) self.new }
    {
        if x < 0 {
            self.put(b'-');
        }
    }

    // Writes a signed number and the space after it.
    fn put_literal(&mut self, x: i32)
        requires { Room self.old (length (number_text x)) }
        ensures { Puts self.old (number_text x) self.new }
    {
        self.put_sign(x);
        self.put_decimal(text::absolute(x));
        self.put(b' ');
    }

    // Writes the line of signed numbers.
    pub(crate) fn put_line(&mut self, literals: &[i32])
        requires { Room self.old (length (numbers_line literals.now)) }
        ensures { Puts self.old (numbers_line literals.now) self.new }
    {
        for literal in literals {
            self.put_literal(*literal);
        }
        self.put_word(b"0\n");
    }
}
