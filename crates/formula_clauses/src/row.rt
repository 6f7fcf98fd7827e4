// A row that has clauses, with what they depend on, and the numbers of its variables.
ghost use Rattle.std.specs.Prelude.{◌≡◌, ◌+◌, ◌*◌, ◌^◌, ◌≤◌, ◌<◌};
ghost use Rattle.request.specs.Numbers.{inputs_most};
ghost use Rattle.formula.specs.Formula.{terminals, L, W, S};

use crate::variables;
use request::numbers::GoodRequest;

// n inputs, r switches, the series bound M, the number of variables before the row, and the row. The numbers stand by themselves and
// not within a request, so that the contracts of a row's clauses name each in a word.
#[derive(Clone, Copy)]
pub struct Row {
    pub n: u8,
    pub r: u8,
    pub m: u8,
    pub before: u16,
    pub k: u8,
    ghost few: { (1 ≤ n) × (n ≤ inputs_most) × (r ≤ 15) × (m ≤ 15) },
    ghost there: { k < 2 ^ n },
}

impl Row {
    // Row k of a request, which `before` variables are before.
    pub(crate) fn of(good: GoodRequest, before: u16, k: u8) -> Row
        requires { k < 2 ^ good.request.n }
        ensures request { (result.n ≡ good.request.n) × (result.r ≡ good.request.r) × (result.m ≡ good.request.m) }
        ensures row { (result.before ≡ before) × (result.k ≡ k) }
    {
        Row {
            n: good.request.n,
            r: good.request.r,
            m: good.request.m,
            before,
            k,
        }
    }

    // L(s,v)
    pub(crate) fn chosen(self, s: u32, v: u32) -> u32
        requires { (s < self.r) × (v < 2 * self.n) }
        ensures { result ≡ L self.n (terminals self.r) s v }
    {
        variables::chosen(self.n, self.r, s as u8, v as u16)
    }

    // W(t,e), and Z(t) at e = 2r + 1
    #[tactic(auto, using(crate::specs::Bounds::entered_most), unfolding(formula::specs::Formula::W))]
    pub(crate) fn entered(self, t: u32, e: u32) -> u32
        requires { (1 ≤ t) × (t ≤ 256) × (e ≤ 2 * self.r + 1) }
        ensures { result ≡ W self.r self.before t e }
    {
        (self.before as u32) + (t - 1) * (2 * (self.r as u32) + 1) + e
    }

    // S(i)
    #[tactic(auto, unfolding(formula::specs::Formula::S))]
    pub(crate) fn side(self, i: u32) -> u32
        requires { i ≤ 512 }
        ensures { result ≡ S self.before i }
    {
        (self.before as u32) + i + 1
    }
}
