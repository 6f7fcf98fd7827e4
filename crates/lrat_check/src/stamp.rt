// A line's stamp, which says what the bytes of the values mean during the line.
ghost use Rattle.std.specs.Prelude.{◌≡◌, ◌+◌, ◌≤◌};
ghost use Rattle.lrat.specs.Rules.{minus_of};
ghost use Rattle.lrat.specs.Bytes.{last_stamp};

// A stamp: it and the one above it fit into a byte.
#[derive(Clone, Copy)]
pub(crate) struct Stamp {
    pub(crate) byte: u8,
    ghost low: { byte ≤ last_stamp },
}

impl Stamp {
    // The byte of a variable that has a value: the stamp for false, the one above it for true. So a literal with a minus is false where
    // the byte is that of true.
    pub(crate) fn of(self, value: bool) -> u8
        ensures { result ≡ self.byte + minus_of value }
    {
        self.byte + u8::from(value)
    }
}
