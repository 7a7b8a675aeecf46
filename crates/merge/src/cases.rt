//! Worked cases: what new rules answer.
ghost use Rattle.std.specs.Prelude.{◌≡◌, []};
ghost use Rattle.merge.specs.Choosing.{fresh_meaning};
ghost use Rattle.merge.specs.Cases.{WorkedCases, worked_answers, fair_behind, asked as asked_of};

use crate::choice::{Choice, Chosen};
use crate::fair::Fair;
use crate::gate::Gate;
use crate::gates::Gates;
use crate::meter::Meter;
use crate::question::Question;
use crate::rule::MergeRule;

/// The question at a clock of `s1`, `s2` and `r`, with the capacities 4 and 2.
fn asked(clock: u32, s1: u16, s2: u16, r: u16) -> Question
    ensures { result ≡ asked_of clock s1 s2 r 4 2 }
{
    Question {
        clock,
        s1,
        s2,
        r,
        q1: 4,
        q2: 2,
    }
}

/// What a new rule answers at a node.
fn new_answers(choice: Choice, node: u16, q: Question) -> (u16, u16)
    ensures { result ≡ (fresh_meaning choice).splits node [] q }
{
    let mut rule = Chosen::new(choice);
    rule.split(node, q)
}

/// What `fair` answers at a node under a meter with a gate there.
fn gated_answers(gate: Gate, node: u16, q: Question) -> (u16, u16)
    ensures { result ≡ (fair_behind node gate).splits node [] q }
{
    let mut gates = Gates::none();
    // Where there is no such node, the rule answers without a gate.
    let _ = gates.put(node, gate);
    let mut rule = Meter::over(Fair, gates);
    rule.split(node, q)
}

/// The worked cases hold of what the rules mean, and new rules give these answers.
pub fn worked_cases() -> [(u16, u16); 9]
    ensures hold { WorkedCases }
    ensures answers { result ≡ worked_answers }
{
    let Some(gate) = Gate::new(1, 3) else {
        unreachable();
    };
    [
        new_answers(Choice::Fair, 1, asked(0, 4, 2, 3)),
        new_answers(Choice::Fair, 1, asked(0, 2, 1, 2)),
        new_answers(Choice::Fair, 1, asked(0, 1, 5, 3)),
        new_answers(
            Choice::Fair,
            1,
            Question {
                q1: 1,
                q2: 1,
                ..asked(0, 5, 5, 1)
            },
        ),
        new_answers(Choice::Ramp, 1, asked(0, 4, 2, 3)),
        new_answers(Choice::Zip, 1, asked(0, 4, 2, 3)),
        new_answers(Choice::Zip, 1, asked(0, 0, 3, 2)),
        gated_answers(gate, 1, asked(1, 4, 2, 3)),
        gated_answers(gate, 1, asked(3, 4, 2, 3)),
    ]
}
