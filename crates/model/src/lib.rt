// The types that the definitions in specs/ and the code share. The definitions are document 01's, section by section.
#![tactic(auto)]

ghost use Rattle.std.specs.Prelude.{◌≡◌};
ghost use Rattle.model.specs.Answer.{rule_number, refusal};

use worker::Workers;

// The largest N, t and N·t. The largest W is worker::SLOTS.
pub const MOST_TILES: usize = 16;

pub const MOST_SIDE: usize = 16;

pub const MOST_ORDER: usize = MOST_TILES * MOST_SIDE;

// The largest N·t that the program takes.
pub const PROGRAM_ORDER: usize = 48;

// How many tasks the largest N has.
pub const MOST_TASKS: usize = 1496;

// What a call is told of a system: N tiles a side, each tile t numbers a side, and W workers.
#[repr(C)]
#[derive(Clone, Copy)]
pub struct Sizes {
    pub tiles: usize,
    pub side: usize,
    pub workers: usize,
}

// What is lent for a task: kind 1 to 4, k, i and j (0 where unused), its mark, the worker that finished it, the sum of the ties of the columns that it
// completed, and the numbers of the calls that took and that ended it. In this order it has no gap, and copies of it as bytes are quicker to make.
#[repr(C)]
#[derive(Clone, Copy)]
pub struct TaskRecord {
    pub kind: u8,
    pub k: u8,
    pub i: u8,
    pub j: u8,
    pub mark: u8,
    pub worker: u8,
    pub ties: u16,
    pub took: u32,
    pub ended: u32,
}

// What a pivot search carries along and tells: the winner's place, its magnitude, and its ties, which are the other candidates with that magnitude.
// Among candidates the place counts from 0; what is told of a column is the row that the row list records.
#[derive(Clone, Copy)]
pub struct Pivot {
    pub place: usize,
    pub magnitude: f64,
    pub ties: u16,
}

// How a column ends: with the ties of its pivot where it is completed and its task goes on or is done, and else with a failed or a spoiled task.
#[derive(Clone, Copy, Debug, PartialEq, Eq)]
pub enum ColumnEnd {
    GoesOn(u16),
    Done(u16),
    Failed,
    Spoiled,
}

// The rules that a call or a text can break, in the order of their numbers.
#[derive(Clone, Copy, Debug, PartialEq, Eq)]
pub enum Rule {
    BadSizes,
    BadLengths,
    NotFinite,
    Damaged,
    WrongWorker,
    NoTask,
    NotReady,
    NotFinished,
    TaskOverflow,
    RowSingular,
    NotSolved,
    Malformed,
    WrongFrame,
    WrongEnd,
    NoRoom,
}

// Why a call does nothing: the rule that is broken, and the place.
#[derive(Clone, Copy, Debug, PartialEq, Eq)]
pub struct Refusal {
    pub rule: Rule,
    pub place: usize,
}

impl Rule {
    // The number that hosts and files know the rule by.
    pub fn number(self) -> u8
        ensures { result ≡ rule_number self }
    {
        match self {
            Rule::BadSizes => 1,
            Rule::BadLengths => 2,
            Rule::NotFinite => 3,
            Rule::Damaged => 4,
            Rule::WrongWorker => 5,
            Rule::NoTask => 6,
            Rule::NotReady => 7,
            Rule::NotFinished => 8,
            Rule::TaskOverflow => 9,
            Rule::RowSingular => 10,
            Rule::NotSolved => 11,
            Rule::Malformed => 12,
            Rule::WrongFrame => 13,
            Rule::WrongEnd => 14,
            Rule::NoRoom => 15,
        }
    }

    // The refusal by this rule at a place.
    pub fn at(self, place: usize) -> Refusal
        ensures { result ≡ refusal self place }
    {
        Refusal { rule: self, place }
    }
}

// What an opening, a take, a column and a solve answer.
pub type Answer = Result<(), Refusal>;

// How a whole run ends that is not refused: finished or spent, with the count of its calls.
#[derive(Clone, Copy, Debug, PartialEq, Eq)]
pub enum RunStop {
    Finished(u64),
    Spent(u64),
}

pub type RunAnswer = Result<RunStop, Refusal>;

// The outcome: good, overflow at a task, or singular at a row.
#[derive(Clone, Copy, Debug, PartialEq, Eq)]
pub enum Outcome {
    Good,
    Overflow(u16),
    Singular(u16),
}

// How far a system has come: its outcome, or the lowest task that is unfinished.
#[derive(Clone, Copy, Debug, PartialEq, Eq)]
pub enum Standing {
    Known(Outcome),
    Unfinished(usize),
}

pub type OutcomeAnswer = Result<Standing, Refusal>;

// What a writer answers: the length written.
pub type WriteAnswer = Result<usize, Refusal>;

// What was read: N and t of a system; N, t and the outcome of a result.
#[derive(Clone, Copy, Debug, PartialEq, Eq)]
pub enum FileRead {
    SystemRead(usize, usize),
    ResultRead(usize, usize, Outcome),
}

pub type ReadAnswer = Result<FileRead, Refusal>;

// What a call hands back that may change the workers: its answer, and the workers.
#[derive(Clone, Copy)]
pub struct CallReply<A> {
    pub answer: A,
    pub workers: Workers,
}
