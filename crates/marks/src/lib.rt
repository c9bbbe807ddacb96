// The marks of tasks, and tests of them.
#![tactic(auto)]

ghost use Rattle.std.specs.Prelude.{◌≡◌};
ghost use Rattle.model.specs.Links.{finished, broken};

// A mark is a byte of a lent record, which C hands over, and contracts speak of that byte: so these are constants and no enum.
pub const WAITING: u8 = 0;

pub const TAKEN: u8 = 1;

pub const DONE: u8 = 2;

pub const FAILED: u8 = 3;

pub const SPOILED: u8 = 4;

// Done, failed or spoiled.
pub fn is_finished(mark: u8) -> bool
    ensures { result ≡ finished mark }
{
    (mark == DONE) | (mark == FAILED) | (mark == SPOILED)
}

// Failed or spoiled.
pub fn is_broken(mark: u8) -> bool
    ensures { result ≡ broken mark }
{
    (mark == FAILED) | (mark == SPOILED)
}
