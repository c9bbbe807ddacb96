// What the calls tell a host: answers and outcomes as numbers.
#![tactic(auto)]

ghost use Rattle.std.specs.Prelude.{◌≡◌, Err};
ghost use Rattle.model.specs.declared.RunStop.TheVariants.{Finished, Spent};
ghost use Rattle.host_answers.specs.Answers.{told, run_told, outcome_told, write_told, read_told, outcome_from};

use model::{
    Answer, FileRead, Outcome, OutcomeAnswer, ReadAnswer, Refusal, RunAnswer, RunStop, Standing,
    WriteAnswer,
};

// What a call tells a host: a refusal's number and place, both 0 where there is none; and by the call a kind, a place and a count.
#[repr(C)]
#[derive(Clone, Copy)]
pub struct Told {
    pub place: usize,
    pub count: u64,
    pub number: u8,
    pub kind: u8,
}

// What a reading tells a host: a refusal's number and place; N and t; and a result's outcome, its kind and the task or row that it stands at.
#[repr(C)]
#[derive(Clone, Copy)]
pub struct ReadTold {
    pub place: usize,
    pub tiles: usize,
    pub side: usize,
    pub at: u16,
    pub number: u8,
    pub kind: u8,
}

// Nothing to tell: no refusal, and every other number 0.
const NOTHING: Told = Told {
    place: 0,
    count: 0,
    number: 0,
    kind: 0,
};

// A refusal's number and place.
fn tell_refusal(why: Refusal) -> Told
    ensures { result ≡ told (Err why) }
{
    Told {
        place: why.place,
        number: why.rule.number(),
        ..NOTHING
    }
}

// What an opening, a take or a column tells.
pub fn tell(answer: Answer) -> Told
    ensures { result ≡ told answer }
{
    match answer {
        Ok(()) => NOTHING,
        Err(why) => tell_refusal(why),
    }
}

// Kind 1: finished; kind 2: spent.
pub fn tell_run(answer: RunAnswer) -> Told
    ensures { result ≡ run_told answer }
{
    match answer {
        Ok(RunStop::Finished(c)) => Told {
            count: c,
            kind: 1,
            ..NOTHING
        },
        Ok(RunStop::Spent(c)) => Told {
            count: c,
            kind: 2,
            ..NOTHING
        },
        Err(why) => tell_refusal(why),
    }
}

// Kind 0: good; 1: overflow at a task; 2: singular at a row. Kind 3: the lowest unfinished task.
pub fn tell_outcome(answer: OutcomeAnswer) -> Told
    ensures { result ≡ outcome_told answer }
{
    match answer {
        Ok(Standing::Known(Outcome::Good)) => NOTHING,
        Ok(Standing::Known(Outcome::Overflow(p))) => Told {
            place: p as usize,
            kind: 1,
            ..NOTHING
        },
        Ok(Standing::Known(Outcome::Singular(x))) => Told {
            place: x as usize,
            kind: 2,
            ..NOTHING
        },
        Ok(Standing::Unfinished(p)) => Told {
            place: p,
            kind: 3,
            ..NOTHING
        },
        Err(why) => tell_refusal(why),
    }
}

// The count is the length written.
pub fn tell_written(answer: WriteAnswer) -> Told
    ensures { result ≡ write_told answer }
{
    match answer {
        Ok(n) => Told {
            count: n as u64,
            ..NOTHING
        },
        Err(why) => tell_refusal(why),
    }
}

// The kind, and the task or row, are those of a result's outcome.
pub fn tell_read(answer: ReadAnswer) -> ReadTold
    ensures { result ≡ read_told answer }
{
    match answer {
        Ok(FileRead::SystemRead(tiles, side)) => tell_result(tiles, side, 0, 0),
        Ok(FileRead::ResultRead(tiles, side, Outcome::Good)) => tell_result(tiles, side, 0, 0),
        Ok(FileRead::ResultRead(tiles, side, Outcome::Overflow(p))) => {
            tell_result(tiles, side, 1, p)
        }
        Ok(FileRead::ResultRead(tiles, side, Outcome::Singular(x))) => {
            tell_result(tiles, side, 2, x)
        }
        Err(why) => ReadTold {
            place: why.place,
            tiles: 0,
            side: 0,
            at: 0,
            number: why.rule.number(),
            kind: 0,
        },
    }
}

// N and t, and an outcome's kind and place.
fn tell_result(tiles: usize, side: usize, kind: u8, at: u16) -> ReadTold
    ensures { result ≡ record { place = 0; tiles = tiles; side = side; at = at; number = 0; kind = kind } }
{
    ReadTold {
        place: 0,
        tiles,
        side,
        at,
        number: 0,
        kind,
    }
}

// The outcome of a kind and its place: 0 is good, 1 overflow, and any other singular.
pub fn outcome_from(kind: u8, place: u16) -> Outcome
    ensures { result ≡ outcome_from kind place }
{
    match kind {
        0 => Outcome::Good,
        1 => Outcome::Overflow(place),
        _ => Outcome::Singular(place),
    }
}
