// The questions put to a call, in document 01's words and document 02's, and how they are answered in their order: by
// a `?` after each. It stands in a module of its own, since names that differ only in case are refused in one module.
ghost use Rattle.std.specs.Prelude.{◌≡◌, true, false, MatchResult};
ghost use Rattle.job.specs.Refusals.{number};

use std::error::Error;
use std::fmt;

/// A question, with the number that the papers give it. A call that a question has a no to is refused by it.
#[derive(Clone, Copy, Debug, PartialEq, Eq)]
pub enum Question {
    Size = 1,
    PairCount = 2,
    TablesInOrder = 3,
    ListingSteps = 4,
    PipesWhole = 5,
    NodesWhole = 6,
    PipesJoin = 7,
    SectionCount = 8,
    PipeConstants = 9,
    NodeKinds = 10,
    NodeFigures = 11,
    NodesMet = 12,
    Friction = 13,
    InitialState = 14,
    Schedules = 15,
    LentLengths = 20,
    StepsInAll = 21,
    LentState = 22,
    ScheduleCounts = 50,
    Chain = 51,
    SettingRows = 52,
    Trips = 53,
}

impl Question {
    /// The number that the papers give it.
    pub fn number(self) -> usize
        ensures { result ≡ number self }
    {
        self as usize
    }
}

impl fmt::Display for Question {
    fn fmt<W: fmt::Write>(&self, f: &mut fmt::Formatter<W>) -> fmt::Result {
        write!(f, "{}", self.number())
    }
}

impl Error for Question {}

/// "The first no decides": a yes lets the next question be asked, and a no is the question itself.
pub fn ask(yes: bool, question: Question) -> Result<(), Question>
    ensures { MatchResult result (λ _. yes ≡ true) (λ q. (yes ≡ false) × (q ≡ question)) }
{
    if yes { Ok(()) } else { Err(question) }
}
