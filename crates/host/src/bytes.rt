// A network as bytes, for a host: r, a literal for each switch, a label for each terminal; and back. An impl of From would be no plainer:
// it would stand in the crate of networks, which knows no host.
ghost use Rattle.std.specs.Prelude.{◌≡◌, ◌<◌, get_or};
ghost use Rattle.host.specs.Bytes.{network_bytes, network_of};

use network::{LITERALS, Network, TERMINALS};
use std::array;

// A network's r, its literals and its labels in one array.
pub type NetworkBytes = [u8; 1 + LITERALS + TERMINALS];

// The byte of a network at a place.
fn byte_at(w: Network, i: usize) -> u8
    requires { i < 24 }
    ensures { result ≡ get_or (network_bytes w) i 0 }
{
    match i {
        0 => w.r,
        1..=LITERALS => w.literals[i - 1],
        _ => w.labels[i - 1 - LITERALS],
    }
}

pub(crate) fn network_bytes(w: Network) -> NetworkBytes
    ensures { result ≡ network_bytes w }
{
    array::from_fn(|i| byte_at(w, i))
}

// The network that such bytes are.
pub(crate) fn network_of(bytes: NetworkBytes) -> Network
    ensures { result ≡ network_of bytes }
{
    Network {
        r: bytes[0],
        literals: array::from_fn(|s| bytes[1 + s]),
        labels: array::from_fn(|i| bytes[1 + LITERALS + i]),
    }
}
