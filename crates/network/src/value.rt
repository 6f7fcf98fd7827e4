// Networks as values: the network of zeros, which goes with a refusal, and the comparison of two networks.
ghost use Rattle.std.specs.Prelude.{◌≡◌};
ghost use Rattle.network.specs.Value.{zeros, same_network};

use crate::{LITERALS, Network, TERMINALS};

pub fn zero_network() -> Network
    ensures { result ≡ zeros }
{
    Network {
        r: 0,
        literals: [0; LITERALS],
        labels: [0; TERMINALS],
    }
}

// Whether two networks are equal: r, every literal and every label, those past the ends too.
#[tactic(auto, using(crate::specs::Value::Laws::fields_same))]
pub fn same_network(a: Network, b: Network) -> bool
    ensures { result ≡ same_network a b }
{
    a == b
}
