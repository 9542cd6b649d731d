// What ends a call of the start or the run-on before its steps are done, and an answer in document 01's terms.
ghost use Rattle.std.specs.Prelude.{◌≡◌, Err};
ghost use Rattle.recurrence.specs.State.{State};
ghost use Rattle.recurrence.specs.Run.{answer_of};
ghost use Rattle.surge.specs.declared.answer.Halt.TheVariants.{Refused};
ghost use Rattle.surge.specs.Answers.{paper_answer};
ghost use Rattle.time_step.specs.StepsInRows.{result_of};

use job::questions::Question;
use section::Fault;
use time_step::Stopped;

// The first question with a no; or what stopped a step: the steps done in all, and the section whose
// head or flow is not finite, or whose head is below its floor.
#[derive(Clone, Copy, Debug, PartialEq, Eq)]
pub enum Halt {
    Refused(Question),
    NotFinite { steps: u64, section: usize },
    Parted { steps: u64, section: usize },
}

impl From<Question> for Halt {
    ghost from_gives = { λ question halt. halt ≡ Refused question };

    fn from(question: Question) -> Halt {
        Halt::Refused(question)
    }
}

impl From<Stopped> for Halt {
    ghost from_gives = { λ stopped halt. (st : State) →
        paper_answer (Err halt) ≡ answer_of (result_of (Err stopped) st) };

    fn from(stopped: Stopped) -> Halt {
        let steps = stopped.steps;
        match stopped.fault {
            Fault::NotFinite(section) => Halt::NotFinite { steps, section },
            Fault::Parted(section) => Halt::Parted { steps, section },
        }
    }
}

// Document 01's number and values of an answer: 0, a question's number, 40 or 41; the steps done in
// all; the section of a stop. The C interface takes these numbers.
#[derive(Clone, Copy, Debug, PartialEq, Eq, Hash)]
pub struct Numbers {
    pub number: usize,
    pub steps: u64,
    pub section: usize,
}

impl From<Result<u64, Halt>> for Numbers {
    ghost from_gives = { λ answer n. (n.number ≡ (paper_answer answer).number)
        × (n.steps ≡ (paper_answer answer).steps) × (n.section ≡ (paper_answer answer).section) };

    fn from(answer: Result<u64, Halt>) -> Numbers {
        let (number, steps, section) = match answer {
            Ok(steps) => (0, steps, 0),
            Err(Halt::Refused(question)) => (question.number(), 0, 0),
            Err(Halt::NotFinite { steps, section }) => (40, steps, section),
            Err(Halt::Parted { steps, section }) => (41, steps, section),
        };
        Numbers {
            number,
            steps,
            section,
        }
    }
}
