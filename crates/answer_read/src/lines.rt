// Lines of an answer.
ghost use Rattle.std.specs.Prelude.{◌≡◌, ◌+◌, ◌≤◌, ◌<◌, length, MatchOption, IfSome};
ghost use Rattle.answer.specs.Lines.{line_end, stands_at, solution_line, some_form, form_at};

use answer::Form;

// The place of the first newline from at on, where there is one.
pub(crate) fn line_end(text: &[u8], at: usize) -> Option<usize>
    ensures { MatchOption result (length text.now ≤ line_end text.now at)
        (λ end. (end ≡ line_end text.now at) × (at ≤ end) × (end < length text.now)) }
{
    let count = text.get(at..)?.iter().position(|byte| *byte == b'\n')?;
    Some(at + count)
}

// Whether the line at a place is "s SATISFIABLE".
pub(crate) fn solution_line(text: &[u8], at: usize) -> bool
    ensures { result ≡ stands_at text.now at solution_line }
{
    text.get(at..)
        .is_some_and(|line| line.starts_with(b"s SATISFIABLE\n"))
}

// The form of the v line at a place, where it has the form. It is read number by number, each from where the last ends.
pub(crate) fn v_form(text: &[u8], at: usize) -> Option<Form>
    ensures form { result ≡ some_form (form_at text.now at) }
    ensures further { IfSome result (λ form. at < form.next) }
{
    if numeral::byte(text, at) != b'v' {
        return None;
    }
    let mut p = at + 1;
    loop {
        if numeral::byte(text, p) != b' ' {
            return None;
        }
        let w = numeral::literal(text, p + 1)?;
        if numeral::byte(text, w.next) == b'\n' {
            return Some(Form {
                next: w.next + 1,
                last: w.value == 0,
            });
        }
        if w.value == 0 {
            return None;
        }
        p = w.next;
    }
}
