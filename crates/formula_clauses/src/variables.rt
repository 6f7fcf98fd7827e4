// The numbers of the variables (document 01, "Variables, from 1").
ghost use Rattle.std.specs.Prelude.{◌≡◌, ℕ, ◌+◌, ◌-◌, ◌*◌, ◌≤◌, ◌<◌};
ghost use Rattle.formula.specs.Formula.{terminals, pair_number, X, L, network_variables};

use crate::pairs;

// X(i,j), i < j, of N terminals, by 2N - 1; where i is past the terminals it takes none of them away
fn joined_up(high: u16, i: u16, j: u16) -> u32
    requires { (high ≤ 1023) × (i ≤ j) }
    ensures { (N : ℕ) → high ≡ 2 * N - 1 → result ≡ pair_number N i j }
{
    (i as u32) * (high.saturating_sub(i) as u32) / 2 + ((j - i) as u32)
}

// X(i,j), for any two of N terminals, by 2N - 1
#[tactic(auto, unfolding(formula::specs::Formula::X))]
fn joined_by(high: u16, i: u16, j: u16) -> u32
    requires { high ≤ 1023 }
    ensures { (N : ℕ) → high ≡ 2 * N - 1 → result ≡ X N i j }
{
    if i < j {
        return joined_up(high, i, j);
    }
    joined_up(high, j, i)
}

// X(i,j), for any two terminals of r switches
pub fn joined(r: u8, i: u16, j: u16) -> u32
    ensures { result ≡ X (terminals r) i j }
{
    joined_by(4 * (r as u16) + 3, i, j)
}

// L(s,v)
#[tactic(auto, using(crate::specs::Bounds::chosen_most), unfolding(formula::specs::Formula::L))]
pub fn chosen(n: u8, r: u8, s: u8, v: u16) -> u32
    ensures { result ≡ L n (terminals r) s v }
{
    pairs::pairs_below(2 * (r as u32) + 2) + 2 * (n as u32) * (s as u32) + (v as u32) + 1
}

// X(i,j) of so many terminals
pub fn joined_among(count: u8, i: u8, j: u8) -> u32
    ensures { result ≡ X count i j }
{
    let high = (2 * (count as u16)).saturating_sub(1);
    joined_by(high, i as u16, j as u16)
}

// The number of X and L variables, which are the first ones.
#[tactic(auto, using(crate::specs::Bounds::chosen_most))]
pub fn network_variables(n: u8, r: u8) -> u32
    ensures { (result ≡ network_variables n r) × (result ≤ 300000) }
{
    pairs::pairs_below(2 * (r as u32) + 2) + 2 * (n as u32) * (r as u32)
}
