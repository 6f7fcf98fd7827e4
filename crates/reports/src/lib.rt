// The text of the report (document 01, "The report program"): what a request, an answer and a refutation, as the bytes of three
// files, come to.
#![tactic(auto)]

ghost use Rattle.std.specs.Prelude.{◌≡◌, ◌≤◌};
ghost use Rattle.lrat_check.specs.Refutation.{lent};
ghost use Rattle.reports.specs.Texts.{shown};
ghost use Rattle.reports.specs.Report.{report_text, report_leaves, BeginsLeast, SaysLeast};

use settle::Verdict;

pub mod buffer;
mod texts;

pub use buffer::Text;

pub fn report(
    request: &[u8],
    answer: &[u8],
    refutation: &[u8],
    literals: &mut [i32],
    pairs: &mut [u32],
    added: &mut [u32],
    values: &mut [u8],
) -> Text
    ensures text { shown result ≡ report_text request.now answer.now refutation.now (lent literals.old pairs.old added.old values.old) }
    ensures slices { lent literals.new pairs.new added.new values.new ≡ report_leaves request.now answer.now refutation.now (lent literals.old pairs.old added.old values.old) }
    ensures least { BeginsLeast (shown result) → SaysLeast request.now (shown result) }
{
    match request_read::read_request(request) {
        Err(refusal) => texts::refused_text(refusal),
        Ok(q) => match settle::settle(q, answer, refutation, literals, pairs, added, values) {
            Err(refusal) => texts::refused_text(refusal),
            Ok(settled) => match settled.verdict {
                Verdict::Least => texts::least_text(q.r, settled.network),
                Verdict::Works(refusal) => texts::works_text(q.r, refusal, settled.network),
                Verdict::Fails(row) => texts::fails_text(q.r, row),
            },
        },
    }
}
