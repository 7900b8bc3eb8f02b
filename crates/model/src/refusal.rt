// The refusals (01, "Numbers returned"), and the number of each.
ghost use Rattle.std.specs.Prelude.{◌≡◌};
ghost use Rattle.model.specs.Answers.{code as code_of};
ghost use Rattle.model.specs.Numbers.{number as number_of};

// Why a call is refused, in the order of the numbers. (specs/Numbers.antt has each with its row of 01 beside it.)
#[derive(Clone, Copy, Debug, PartialEq, Eq)]
pub enum Refusal {
    BadProcessCount = 1,
    BadRoundLimit = 2,
    Unsound = 3,
    NoSuchProcess = 4,
    BlankProposal = 5,
    SecondProposal = 6,
    ProcessOut = 7,
    ProcessGone = 8,
    ProcessSpent = 9,
    BadSheet = 10,
    BadPairs = 11,
    BadRun = 12,
    BadEntry = 13,
    NoSuchRound = 14,
    BadBuffer = 15,
    CountsFull = 16,
    BadCuts = 17,
    ClosedToProposals = 18,
    BadWards = 19,
    IllegalList = 20,
    LastList = 21,
}

impl Refusal {
    // The number that is returned for it; 0 is accepted.
    pub fn number(self) -> u32
        ensures { result ≡ number_of self }
    {
        self as u32
    }
}

// The number that an answer returns: 0 where it is accepted.
pub fn code<T>(answer: &Result<T, Refusal>) -> u32
    ensures { result ≡ code_of answer.now }
{
    match answer {
        Ok(_) => 0,
        Err(refusal) => refusal.number(),
    }
}
