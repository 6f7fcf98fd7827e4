// A request given as numbers, and its test, which every later operation makes first: the first of the refusals 2, 3, 24, 4 and 5 that
// applies. The rows are tested after n, since 2^n rows need a good n.
ghost use Rattle.std.specs.Prelude.{◌≡◌, IfOk};
ghost use Rattle.refusal.specs.Refusal.{number_of};
ghost use Rattle.request.specs.Numbers.{Good, asked, refusal_of};

use crate::{INPUTS, Request, SERIES, SWITCHES};
use refusal::Refusal;

// A request that is not refused. What asks for one needs no test of its own.
#[derive(Clone, Copy)]
pub struct GoodRequest {
    pub request: Request,
    ghost good: { Good request },
}

impl Request {
    // The request that a caller asks who hands it over as numbers.
    pub fn new(n: u8, table: u16, free: u16, r: u8, m: u8) -> Request
        ensures { result ≡ asked n table free r m }
    {
        Request {
            n,
            table,
            free,
            r,
            m,
        }
    }

    pub fn test(self) -> Result<GoodRequest, Refusal>
        ensures number { number_of result ≡ refusal_of self }
        ensures request { IfOk result (λ good. good.request ≡ self) }
    {
        if self.n < 1 {
            return Err(Refusal::Inputs);
        }
        if INPUTS < self.n {
            return Err(Refusal::Inputs);
        }
        let rows = 1u32 << (self.n as u32);
        if (self.table as u32) >> rows != 0 {
            return Err(Refusal::Table);
        }
        if (self.free as u32) >> rows != 0 {
            return Err(Refusal::Table);
        }
        if self.table & self.free != 0 {
            return Err(Refusal::RowTwice);
        }
        if SWITCHES < self.r {
            return Err(Refusal::Switches);
        }
        if SERIES < self.m {
            return Err(Refusal::SeriesBound);
        }
        Ok(GoodRequest { request: self })
    }
}
