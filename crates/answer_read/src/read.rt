// Reading an answer, line by line from the top.
ghost use Rattle.std.specs.Prelude.{◌≡◌, ◌≤◌, ◌<◌, length, replicate, IfOk};
ghost use Rattle.refusal.specs.Refusal.{number_of};
ghost use Rattle.formula.specs.Count.{values_most};
ghost use Rattle.answer.specs.Values.{kept};
ghost use Rattle.answer.specs.Reading.{LineBy, LinesBy, phase_number, gave, line_step, lines_from, ended, reading_of, result_of, read_network};

use crate::values::Named;
use crate::{decode, lines, values};
use answer::{Phase, Progress, VALUES};
use network::Network;
use refusal::Refusal;
use request::Request;
use request::numbers::GoodRequest;

// Reads the line at a place, and gives the place of the next.
fn read_line(
    text: &[u8],
    at: usize,
    named: Named,
    progress: &mut Progress,
) -> Result<usize, Refusal>
    requires { at < length text.now }
    ensures step { LineBy (line_step named.top named.keep text.now at (phase_number progress.old.phase) progress.old.values) result progress.new }
    ensures further { IfOk result (λ next. at < next) }
{
    if text[at] == b'c' {
        let end = lines::line_end(text, at).ok_or(Refusal::AnswerLine)?;
        return Ok(end + 1);
    }
    match progress.phase {
        Phase::Before => {
            if !lines::solution_line(text, at) {
                return Err(Refusal::AnswerLine);
            }
            progress.phase = Phase::Naming;
            Ok(at + 14)
        }
        Phase::Naming => {
            let form = lines::v_form(text, at).ok_or(Refusal::AnswerLine)?;
            named.take(text, at + 1, &mut progress.values)?;
            if form.last {
                progress.phase = Phase::After;
            }
            Ok(form.next)
        }
        Phase::After => Err(Refusal::AnswerLine),
    }
}

// Reads the lines from the top, each from where the last ends.
fn read_lines(text: &[u8], named: Named) -> Result<Progress, Refusal>
    ensures { LinesBy (lines_from named.top named.keep text.now (length text.now) 0 0 (replicate values_most 0)) result }
{
    let mut progress = Progress {
        phase: Phase::Before,
        values: [0; VALUES],
    };
    let mut at = 0;
    while at < text.len() {
        at = read_line(text, at, named, &mut progress)?;
    }
    Ok(progress)
}

// What the lines gave, judged: what is missing, what fails, or the network.
fn judge(good: GoodRequest, keep: usize, progress: Progress) -> Result<Network, Refusal>
    requires { keep ≡ kept good.request.n good.request.r }
    ensures { result ≡ result_of (ended good.request (gave 0 (phase_number progress.phase) progress.values)) }
{
    if progress.phase != Phase::After {
        return Err(Refusal::AnswerIncomplete);
    }
    if !values::all_named(keep, &progress.values) {
        return Err(Refusal::AnswerIncomplete);
    }
    if !values::clauses_hold(good, &progress.values) {
        return Err(Refusal::AnswerClauses);
    }
    Ok(decode::decode(good, progress.values))
}

pub fn read_answer(q: Request, text: &[u8]) -> Result<Network, Refusal>
    ensures reading { result ≡ result_of (reading_of q text.now) }
    ensures number { number_of result ≡ (reading_of q text.now).refusal }
    ensures network { read_network result ≡ (reading_of q text.now).network }
{
    let size = formula_clauses::count::count(q)?;
    let good = q.test()?;
    let keep = formula_clauses::variables::network_variables(q.n, q.r) as usize;
    let named = Named {
        top: size.variables as usize,
        keep,
    };
    let progress = read_lines(text, named)?;
    judge(good, keep, progress)
}
