// The texts that the report program prints.
ghost use Rattle.std.specs.Prelude.{◌≡◌};
ghost use Rattle.refusal.specs.Refusal.{number};
ghost use Rattle.reports.specs.Texts.{shown};
ghost use Rattle.reports.specs.Reports.{refused_text, fails_text, works_text, least_text};

use crate::Text;
use network::Network;
use refusal::Refusal;

// "refused number"
pub(crate) fn refused_text(refusal: Refusal) -> Text
    ensures { shown result ≡ refused_text (number refusal) }
{
    let mut t = Text::new();
    t.put_word(b"refused ");
    t.put_number(refusal.number(), b'\n');
    t
}

// "fails k row"
pub(crate) fn fails_text(k: u8, row: u8) -> Text
    ensures { shown result ≡ fails_text k row }
{
    let mut t = Text::new();
    t.put_word(b"fails ");
    t.put_number(k, b' ');
    t.put_number(row, b'\n');
    t
}

// "works k number" and the network.
pub(crate) fn works_text(k: u8, reason: Refusal, w: Network) -> Text
    ensures { shown result ≡ works_text k (number reason) w }
{
    let mut t = Text::new();
    t.put_word(b"works ");
    t.put_number(k, b' ');
    t.put_number(reason.number(), b'\n');
    t.put_network(w);
    t
}

// "least k" and the network.
pub(crate) fn least_text(k: u8, w: Network) -> Text
    ensures { shown result ≡ least_text k w }
{
    let mut t = Text::new();
    t.put_word(b"least ");
    t.put_number(k, b'\n');
    t.put_network(w);
    t
}
