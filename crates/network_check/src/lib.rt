// Checking a network against a request: the refusals of the request, 13 for the form, then the rows from the lowest.
//
// A row's closed switches are found once. On an on row the terminals within t switches of the sink are found for t = 0 to M; on
// an off row the nets at the two ends of each closed switch are merged, one switch after the other, and the source and the sink
// must stay apart. Merging needs no bound on the length of a walk. A free row is right in any case.
#![tactic(auto)]

ghost use Rattle.std.specs.Prelude.{◌≡◌, true, false, ℕ, ◌+◌, ◌*◌, ◌^◌, ◌≤◌, ◌<◌, get_or};
ghost use Rattle.request.specs.Numbers.{switches_most};
ghost use Rattle.rows.specs.Rows.{literal_value, row_at};
ghost use Rattle.network.specs.Check.{shut_at, label_in, near_in, at_sink, leads, touching, nearer, near, move, apart, literals_low, labels_lowest, row_right, fitting, rows_answer, number_of, values_of, checked_number, checked_values, checked_of};
ghost use Rattle.network.specs.Networks.{terminals};
ghost use Rattle.network.specs.Value.{terminals_most, listed};
ghost use Rattle.network.specs.Meaning.{Means};

use network::{LITERALS, Labels, Literals, Network, TERMINALS};
use refusal::Refusal;
use request::Request;
use request::numbers::GoodRequest;
use rows::Kind;

// A mark for each terminal.
type Marks = [bool; TERMINALS];

// The nets of a network of r switches on a row: which switches are closed there, and the terminals' labels.
#[derive(Clone, Copy)]
struct Nets {
    r: u8,
    shut: [bool; LITERALS],
    labels: Labels,
    ghost few: { r ≤ switches_most },
}

impl Nets {
    // Those of a network on row k.
    fn on_row(q: GoodRequest, w: Network, k: u8) -> Nets
        ensures size { result.r ≡ q.request.r }
        ensures labels { result.labels ≡ w.labels }
        ensures shut { (s : ℕ) → s < q.request.r → get_or result.shut s false ≡ literal_value q.request.n k (get_or w.literals s 0) }
    {
        let literals = w.literals;
        let mut shut = [false; LITERALS];
        for s in 0..q.request.r as usize {
            shut[s] = rows::literal_on(q.request.n, k, literals[s]);
        }
        let labels = w.labels;
        Nets {
            r: q.request.r,
            shut,
            labels,
        }
    }

    // The terminals on the sink's net.
    fn at_sink(&self) -> Marks
        ensures { (i : ℕ) → i < terminals self.now.r → get_or result i false ≡ at_sink self.now.r (label_in self.now.labels) i }
    {
        let sink = 2 * (self.r as usize) + 1;
        let mut marks = [false; TERMINALS];
        for i in 0..sink + 1 {
            marks[i] = self.labels[i] == self.labels[sink];
        }
        marks
    }

    // Whether e is an end of a closed switch on the net of terminal i, and the switch's other end is marked.
    fn leads(&self, marked: &Marks, i: usize, e: usize) -> bool
        requires { (i < terminals_most) × (1 ≤ e) × (e ≤ 2 * self.now.r) }
        ensures { result ≡ leads self.now.r (shut_at self.now.shut) (label_in self.now.labels) (near_in marked.now) i e }
    {
        let s = (e - 1) / 2;
        self.labels[i] == self.labels[e] && self.shut[s] && marked[4 * s + 3 - e]
    }

    // Whether some closed switch leads from the net of terminal i to a terminal that is marked.
    fn touches(&self, marked: &Marks, i: usize) -> bool
        requires { i < terminals_most }
        ensures { result ≡ touching self.now.r (shut_at self.now.shut) (label_in self.now.labels) (near_in marked.now) i }
    {
        (1..2 * (self.r as usize) + 1).any(|e| self.leads(marked, i, e))
    }

    // The terminals that are marked, and those one closed switch away from one that is.
    fn one_more(&self, marked: &Marks) -> Marks
        ensures { (i : ℕ) → i < terminals self.now.r → get_or result i false ≡ nearer self.now.r (shut_at self.now.shut) (label_in self.now.labels) (near_in marked.now) i }
    {
        let mut more = *marked;
        for i in 0..2 * (self.r as usize) + 2 {
            if !marked[i] && self.touches(marked, i) {
                more[i] = true;
            }
        }
        more
    }

    // Whether a walk of at most m closed switches joins the source's net to the sink's.
    fn near_source(&self, m: u8) -> bool
        ensures { result ≡ near self.now.r (shut_at self.now.shut) (label_in self.now.labels) m 0 }
    {
        let mut marked = self.at_sink();
        for _ in 0..m {
            marked = self.one_more(&marked);
        }
        marked[0]
    }

    // The parts with part q made part p.
    fn merge(&self, parts: Labels, p: u8, q: u8) -> Labels
        ensures { (i : ℕ) → i < terminals self.now.r → get_or result i 0 ≡ move true p q (get_or parts i 0) }
    {
        let mut merged = [0; TERMINALS];
        for i in 0..2 * (self.r as usize) + 2 {
            merged[i] = if parts[i] == q { p } else { parts[i] };
        }
        merged
    }

    // Whether no walk of closed switches joins the source's net to the sink's.
    fn kept_apart(&self) -> bool
        ensures { result ≡ apart self.now.r (shut_at self.now.shut) (label_in self.now.labels) }
    {
        let count = self.r as usize;
        let mut parts = self.labels;
        for s in 0..count {
            if self.shut[s] {
                parts = self.merge(parts, parts[2 * s + 1], parts[2 * s + 2]);
            }
        }
        parts[0] != parts[2 * count + 1]
    }
}

// Whether every literal is below 2n.
fn literals_low(q: GoodRequest, literals: Literals) -> bool
    ensures { result ≡ literals_low q.request.n q.request.r (label_in literals) }
{
    (0..q.request.r as usize).all(|s| literals[s] < 2 * q.request.n)
}

// Whether every label is the lowest terminal of its net.
fn labels_lowest(q: GoodRequest, labels: Labels) -> bool
    ensures { result ≡ labels_lowest q.request.r (label_in labels) }
{
    (0..2 * (q.request.r as usize) + 2).all(|i| {
        let low = labels[i] as usize;
        low <= i && labels[low] == labels[i]
    })
}

// Whether a network has the form: the request's number of switches, and literals and labels as they have to be.
#[tactic(auto, unfolding(network::specs::Check::fitting))]
fn fits(q: GoodRequest, w: Network) -> bool
    ensures { result ≡ fitting q.request w }
{
    w.r == q.request.r && literals_low(q, w.literals) && labels_lowest(q, w.labels)
}

// Whether row k is right.
fn row_right(q: GoodRequest, w: Network, k: u8) -> bool
    requires { (fitting q.request w ≡ true) × (k < 2 ^ q.request.n) }
    ensures { result ≡ row_right q.request.r q.request.m (listed q.request.r w) (row_at q.request k) }
{
    let nets = Nets::on_row(q, w, k);
    match rows::row_kind(q.request, k) {
        Kind::On => nets.near_source(q.request.m),
        Kind::Off => nets.kept_apart(),
        Kind::Free => true,
    }
}

// The lowest wrong row of a network that has the form.
fn lowest_wrong(q: GoodRequest, w: Network) -> Option<u8>
    requires { fitting q.request w ≡ true }
    ensures { result ≡ rows_answer q.request w }
{
    (0..1u8 << q.request.n).find(|k| !row_right(q, w, *k))
}

pub fn check_network(q: Request, w: Network) -> Result<Option<u8>, Refusal>
    ensures answer { result ≡ checked_of q w }
    ensures meaning { Means q w result }
    ensures number { number_of result ≡ checked_number q w }
    ensures values { values_of result ≡ checked_values q w }
{
    let good = q.test()?;
    if !fits(good, w) {
        return Err(Refusal::NetworkForm);
    }
    Ok(lowest_wrong(good, w))
}
