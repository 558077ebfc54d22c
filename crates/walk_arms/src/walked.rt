// What a search of trees says: the `Option<bool>` of `substitute_single_use_symbol_in_expression`
// (src/peephole/minimize_statements.rs 1272-1274), and where it is replaced.
ghost use Rattle.std.specs.Prelude.{◌≡◌};
ghost use Rattle.walk_arms.specs.Answers.{either as either_of};
ghost use Rattle.walk_arms.specs.declared.walked.Answer.TheVariants.{Replaced, Stopped, Passed};

use records::layout::NodeId;

// Some(true), Some(false), None of the Rust. Replaced: where the name stands, and whether it is a tag that stays indirect.
// Stopped: not replaced, and the search ends. Passed: not replaced, and it goes on; whether the trees have an effect.
#[derive(Clone, Copy)]
pub enum Answer {
    Replaced(NodeId, bool),
    Stopped,
    Passed(bool),
}

// The answer, where the trees end (unless replaced), and the looks.
#[derive(Clone, Copy)]
pub struct Walked {
    pub answer: Answer,
    pub end: NodeId,
    pub looks: usize,
}

// The name stands at `at`.
pub fn replaced(at: NodeId, indirect: bool, looks: usize) -> Walked
    ensures result { result ≡ record { answer = Replaced at indirect; end = at; looks = looks } }
{
    Walked {
        answer: Answer::Replaced(at, indirect),
        end: at,
        looks,
    }
}

// The search ends in trees that end before `end`.
pub fn stopped(end: NodeId, looks: usize) -> Walked
    ensures result { result ≡ record { answer = Stopped; end = end; looks = looks } }
{
    Walked {
        answer: Answer::Stopped,
        end,
        looks,
    }
}

// Trees that end before `end` are passed.
pub fn passed(end: NodeId, effect: bool, looks: usize) -> Walked
    ensures result { result ≡ record { answer = Passed effect; end = end; looks = looks } }
{
    Walked {
        answer: Answer::Passed(effect),
        end,
        looks,
    }
}

// Where the search ended in one branch of a ConditionalExpression (1542-1549): what it says of both, by what it says of the
// other. `Replaced` is made anew, since a copy of the enum takes its unused bytes along (docs/BENCHMARKS.md, under "An answer is
// made anew by its cases").
pub fn either(other: Answer) -> Answer
    ensures result { result ≡ either_of other }
{
    match other {
        Answer::Replaced(place, indirect) => Answer::Replaced(place, indirect),
        Answer::Stopped | Answer::Passed(_) => Answer::Stopped,
    }
}
