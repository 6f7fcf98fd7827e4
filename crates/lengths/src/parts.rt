// How long the lines of a request's clauses are, by the numbers of their variables: no clause is made.
//
// A literal is the digits of its variable, a space after them, and a minus before them where it is negative. So the lines of clauses
// of one form are so many bytes for each clause, and the digits and spaces of each variable as often as it occurs. Where variables
// follow each other their lengths are one closed form; those of X from a terminal, and of L on a row, are added up.
ghost use Rattle.std.specs.Prelude.{◌≡◌, ◌+◌, ◌-◌, ◌*◌, ◌^◌, ◌≤◌, ◌<◌};
ghost use Rattle.prelude.specs.Sums.{sum};
ghost use Rattle.rows.specs.Rows.{literal_on};
ghost use Rattle.formula.specs.Formula.{terminals, on_row, net_sides, switch_sides, off_row};
ghost use Rattle.formula.specs.Count.{variables_before};
ghost use Rattle.formula_clauses.specs.declared.Block.TheVariants.{Network};
ghost use Rattle.formula_clauses.specs.Block.{block_clauses, block_variables, block_of, clauses_of};
ghost use Rattle.lengths.specs.Lines.{literal_length, lines_length};
ghost use Rattle.lengths.specs.Length.{run_length, chosen_at, chosen_of, chosen_length, joined_at, joined_to, joined_ends, step_length, steps_length, link_length, links_length, NetsOf};

use crate::sums::sum_below;
use formula_clauses::row::Row;
use formula_clauses::{groups, off_row, on_row, variables};
use request::numbers::GoodRequest;
use rows::Kind;

// The length of the variables below x, each with a space: a digit and the space, and one digit more from each power of ten on.
fn numbers_length(x: u32) -> u32
    requires { x ≤ 100000 }
    ensures { (result ≡ sum x literal_length) × (result ≤ 600000) }
{
    2 * x
        + x.saturating_sub(10)
        + x.saturating_sub(100)
        + x.saturating_sub(1000)
        + x.saturating_sub(10000)
}

// The length of count variables from first on.
#[tactic(auto, using(crate::specs::Length::Laws::run_parts, crate::specs::Length::Laws::run_most))]
fn run_length(first: u32, count: u32) -> u32
    requires { first + count ≤ 100000 }
    ensures { (result ≡ run_length first count) × (result ≤ count * 6) }
{
    numbers_length(first + count) - numbers_length(first)
}

// The length of one variable.
fn literal_length(v: u32) -> u32
    requires { v < 100000 }
    ensures { (result ≡ literal_length v) × (result ≤ 6) }
{
    text::decimal_length(v) as u32 + 1
}

// The length of L(s,v) if the literal v has the value on the row, which is what is sought, and no step to run.
fn chosen_at(row: Row, value: bool, s: u8, v: u8) -> u32
    requires { (s < row.r) × (v < 2 * row.n) }
    ensures { (result ≡ chosen_at row.n row.r row.k value s v) × (result ≤ 6) }
{
    if rows::literal_on(row.n, row.k, v) == value {
        return literal_length(variables::chosen(row.n, row.r, s, v as u16));
    }
    0
}

// For all literals.
fn chosen_of(row: Row, value: bool, s: u8) -> u32
    requires { s < row.r }
    ensures { (result ≡ chosen_of row.n row.r row.k value s) × (result ≤ 96) }
{
    sum_below(
        2 * row.n,
        6,
        |v|
            requires { (s < row.r) × (v < 2 * row.n) }
        { chosen_at(row, value, s, v) },
    )
}

// For all switches.
fn chosen_length(row: Row, value: bool) -> u32
    ensures { (result ≡ chosen_length row.n row.r row.k value) × (result ≤ 1440) }
{
    sum_below(
        row.r,
        96,
        |s|
            requires { s < row.r }
        { chosen_of(row, value, s) },
    )
}

// The length of X(a,1+g) but for 1 + g = a.
fn joined_at(good: GoodRequest, a: u8, g: u8) -> u32
    requires { (a ≤ 2 * good.request.r + 1) × (g < 2 * good.request.r + 1) }
    ensures { (result ≡ joined_at good.request.r a g) × (result ≤ 6) }
{
    if 1 + g == a {
        return 0;
    }
    literal_length(variables::joined(good.request.r, a as u16, 1 + g as u16))
}

// The length of X(a,g) for each terminal g but the source and a.
fn joined_to(good: GoodRequest, a: u8) -> u32
    requires { a ≤ 2 * good.request.r + 1 }
    ensures { (result ≡ joined_to good.request.r a) × (result ≤ 186) }
{
    sum_below(
        2 * good.request.r + 1,
        6,
        |g|
            requires { (a ≤ 2 * good.request.r + 1) × (g < 2 * good.request.r + 1) }
        { joined_at(good, a, g) },
    )
}

// For each end a.
fn joined_ends(good: GoodRequest) -> u32
    ensures { (result ≡ joined_ends good.request.r) × (result ≤ 5580) }
{
    sum_below(
        2 * good.request.r,
        186,
        |a|
            requires { a < 2 * good.request.r }
        { joined_to(good, 1 + a) },
    )
}

// The length of an on row's lines about a step that at variables are before: one clause of all its variables, and for each end n
// clauses of it and an L, both negative, so four bytes each besides the variables. Each L is there for both ends of its switch.
fn step_length(row: Row, at: u32, chosen: u32) -> u32
    requires { (at ≤ 66000) × (chosen ≤ 1440) }
    ensures { (result ≡ step_length row.n row.r at chosen) × (result ≤ 6000) }
{
    let n = row.n as u32;
    let r = row.r as u32;
    let stop = run_length(at + 1, 2 * r + 1);
    let ends = run_length(at + 1, 2 * r);
    2 + stop + (n * (8 * r + ends) + 2 * chosen)
}

// The variables before step t, from 0.
fn step_before(row: Row, t: u8) -> u32
    requires { t ≤ 15 }
    ensures { (result ≡ row.before + t * (2 * row.r + 1)) × (result ≤ 66000) }
{
    (row.before as u32) + (t as u32) * (2 * (row.r as u32) + 1)
}

// For each step.
fn steps_length(row: Row, chosen: u32) -> u32
    requires { chosen ≤ 1440 }
    ensures { (result ≡ steps_length row.n row.r row.m row.before chosen) × (result ≤ 90000) }
{
    sum_below(
        row.m,
        6000,
        |t|
            requires { (t ≤ 15) × (chosen ≤ 1440) }
        { step_length(row, step_before(row, t), chosen) },
    )
}

// The length of those about a step and the next: for each end 2r clauses of it and what follows it, both negative, and an X. Each end
// of the next step, and its stop, follows all ends, but an end does not follow the other end of its switch.
fn link_length(row: Row, at: u32, joined: u32) -> u32
    requires { (at ≤ 66000) × (joined ≤ 5580) }
    ensures { (result ≡ link_length row.r at joined) × (result ≤ 20200) }
{
    let r = row.r as u32;
    let next = at + (2 * r + 1);
    let ends = run_length(at + 1, 2 * r);
    let stop = run_length(next + 1, 2 * r + 1);
    2 * r * (8 * r + ends + stop) + joined - run_length(next + 1, 2 * r)
}

// For each step but the last.
fn links_length(row: Row, joined: u32) -> u32
    requires { joined ≤ 5580 }
    ensures { (result ≡ links_length row.r row.m row.before joined) × (result ≤ 303000) }
{
    sum_below(
        row.m.saturating_sub(1),
        20200,
        |t|
            requires { (t ≤ 15) × (joined ≤ 5580) }
        { link_length(row, step_before(row, t), joined) },
    )
}

// A request, and the lengths of X that each of its on rows has: from every end, and from the source and the sink.
#[derive(Clone, Copy)]
pub struct Nets {
    pub good: GoodRequest,
    pub ends: u32,
    pub outer: u32,
    ghost are: { NetsOf good.request.r ends outer },
}

// Those of a request.
pub(crate) fn nets_of(good: GoodRequest) -> Nets
    ensures { result.good ≡ good }
{
    Nets {
        good: good,
        ends: joined_ends(good),
        outer: joined_to(good, 0) + joined_to(good, 2 * good.request.r + 1),
    }
}

// The length of an on row's lines: those of single steps and of two, and the clauses of the first and the last step, each a negative
// variable and an X.
fn on_row_length(nets: Nets, row: Row) -> u32
    requires { row.r ≡ nets.good.request.r }
    ensures { (result ≡ lines_length (on_row row.n row.r row.m row.before (literal_on row.n row.k))) × (result ≤ 400000) }
{
    let r = row.r as u32;
    if row.m == 0 {
        return literal_length(variables::joined(row.r, 0, 2 * (row.r as u16) + 1)) + 2;
    }
    let chosen = chosen_length(row, false);
    let single = steps_length(row, chosen);
    let double = links_length(row, nets.ends);
    let first = run_length((row.before as u32) + 1, 2 * r + 1);
    let last = run_length(step_before(row, row.m - 1) + 1, 2 * r);
    single + double + (12 * r + 3 + first + last) + nets.outer
}

// The length of an off row's lines for the pairs of terminals: two clauses for each, with two negative literals. Without inputs the X
// are all variables of a network.
#[tactic(auto, using(crate::specs::Length::Laws::joined_count))]
fn net_sides_length(row: Row) -> u32
    ensures { (result ≡ lines_length (net_sides (terminals row.r) row.before)) × (result ≤ 30000) }
{
    let r = row.r as u32;
    let pairs = variables::network_variables(0, row.r);
    let joined = run_length(1, pairs);
    let sides = run_length((row.before as u32) + 1, 2 * r + 2);
    8 * pairs + 2 * joined + 2 * ((2 * r + 1) * sides)
}

// The length of those for the switches: two such clauses for each switch and each literal that is 1 on the row.
fn switch_sides_length(row: Row) -> u32
    ensures { (result ≡ lines_length (switch_sides row.n (terminals row.r) row.r row.before (literal_on row.n row.k))) × (result ≤ 10000) }
{
    let n = row.n as u32;
    let r = row.r as u32;
    let ends = run_length((row.before as u32) + 2, 2 * r);
    n * (8 * r + 2 * ends) + 2 * chosen_length(row, true)
}

// The length of an off row's lines: a clause for the source, negative, one for the sink, and both of these.
fn off_row_length(row: Row) -> u32
    ensures { (result ≡ lines_length (off_row row.n (terminals row.r) row.r row.before (literal_on row.n row.k))) × (result ≤ 50000) }
{
    let before = row.before as u32;
    let source = literal_length(before + 1);
    let sink = literal_length(before + 2 * (row.r as u32) + 2);
    5 + source + sink + net_sides_length(row) + switch_sides_length(row)
}

// The length of the lines of groups 1 and 2: all clauses have two negative literals but the long one of each switch, which has none.
// Each X is in 2r triples, three times in each, and each L in 2n clauses.
#[tactic(auto, using(crate::specs::Length::Laws::joined_count))]
pub(crate) fn network_length(good: GoodRequest) -> u32
    ensures { (result ≡ lines_length (block_clauses good.request.n good.request.r 0 Network)) × (result ≤ 900000000) }
{
    let q = good.request;
    let inputs = q.n as u32;
    let switches = q.r as u32;
    let pairs = variables::network_variables(0, q.r);
    let joined = run_length(1, pairs);
    let chosen = run_length(pairs + 1, switches * (2 * inputs));
    4 * groups::network_count(q.n, q.r) - 2 * switches
        + (3 * (2 * switches * joined) + 2 * inputs * chosen)
}

// How many variables a row has, and how long its lines are.
#[derive(Clone, Copy)]
pub struct RowSize {
    pub variables: u16,
    pub length: u32,
}

// Those of row k, which `before` variables are before.
pub(crate) fn row_size(nets: Nets, k: u8, before: u16) -> RowSize
    requires { (k < 2 ^ nets.good.request.n) × (before ≡ variables_before nets.good.request k) }
    ensures variables { (result.variables ≡ block_variables nets.good.request.r nets.good.request.m (block_of nets.good.request (k + 1))) × (result.variables ≤ 465) }
    ensures length { (result.length ≡ lines_length (clauses_of nets.good.request (k + 1))) × (result.length ≤ 400000) }
{
    let q = nets.good.request;
    // as `Row::of` makes it, which asks that the row is there
    let row = Row {
        n: q.n,
        r: q.r,
        m: q.m,
        before,
        k,
    };
    match rows::row_kind(q, k) {
        Kind::On => {
            RowSize {
                variables: on_row::on_row_variables(nets.good),
                length: on_row_length(nets, row),
            }
        }
        Kind::Off => {
            RowSize {
                variables: off_row::off_row_variables(nets.good),
                length: off_row_length(row),
            }
        }
        Kind::Free => {
            RowSize {
                variables: 0,
                length: 0,
            }
        }
    }
}
