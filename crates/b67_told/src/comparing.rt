//! Whether an outcome is told.

ghost use Rattle.std.specs.Prelude.{◌≡◌, ◌↔◌, IsTrue, true, false};
ghost use Rattle.b67_told.specs.declared.Outcome.{Outcome};
ghost use Rattle.b67_told.specs.Telling.{OutcomeIsTold};

use crate::Told;
use b67_list::Line;
use b67_report::EndWords;

// Tests that two lines are the same.
fn is_same(line: &Line, other: &Line) -> bool
    ensures { IsTrue result ↔ (line.now ≡ other.now) }
{
    line.bytes() == other.bytes()
}

// Tests that two outputs are the same, line by line from the last one.
fn same_lines(lines: &[Line], others: &[Line]) -> bool
    ensures yes { result ≡ true → lines.now ≡ others.now }
    ensures no { result ≡ false → lines.now ≡ others.now → ⊥ }
{
    if lines.len() != others.len() {
        return false;
    }
    let mut left = lines.len();
    'lines: while left > 0 {
        left -= 1;
        if !is_same(&lines[left], &others[left]) {
            return false;
        }
    }
    true
}

// Tests that two runs ended alike.
fn same_end(end: EndWords, other: EndWords) -> bool
    ensures yes { result ≡ true → end ≡ other }
    ensures no { result ≡ false → end ≡ other → ⊥ }
{
    match (end, other) {
        (EndWords::Finished, EndWords::Finished) => true,
        (EndWords::AllWaiting, EndWords::AllWaiting) => true,
        (EndWords::BudgetSpent, EndWords::BudgetSpent) => true,
        (EndWords::ScheduleEnded, EndWords::ScheduleEnded) => true,
        (
            EndWords::Fault { kind, process },
            EndWords::Fault {
                kind: other,
                process: another,
            },
        ) => kind == other && process == another,
        (
            EndWords::StackLimit { process, words },
            EndWords::StackLimit {
                process: another,
                words: others,
            },
        ) => process == another && words == others,
        (EndWords::Illegal { entry }, EndWords::Illegal { entry: other }) => entry == other,
        (EndWords::Differs { entry }, EndWords::Differs { entry: other }) => entry == other,
        _ => false,
    }
}

/// Tests that this output with this end is told.
pub fn is_told(told: &[Told], output: &[Line], end: EndWords) -> bool
    ensures yes { result ≡ true → OutcomeIsTold told.now (record { output = output.now; end = end }) }
    ensures no { result ≡ false → OutcomeIsTold told.now (record { output = output.now; end = end }) → ⊥ }
{
    'told: for item in told {
        if same_end(item.outcome.end, end)
            && same_lines(item.outcome.output.items().as_slice(), output)
        {
            return true;
        }
    }
    false
}
