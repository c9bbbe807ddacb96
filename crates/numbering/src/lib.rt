// The tasks in number order, one after the other, as triples: T-1(k) is (k,k,k), T-2(k,j) is (k,k,j), T-3(k,i) is (k,i,k), T-4(k,i,j) is (k,i,j).
// Task 0 is (0,0,0).
#![tactic(auto)]

ghost use Rattle.std.specs.Prelude.{◌≡◌, ◌+◌, ◌≤◌, ◌<◌, length};
ghost use Rattle.model.specs.Limits.{most_tiles};
ghost use Rattle.model.specs.Task.{tasks};
ghost use Rattle.links.specs.Closed.{key, In, number};

#[derive(Clone, Copy)]
pub struct Triple {
    pub k: u8,
    pub i: u8,
    pub j: u8,
}

// The triple of task 0.
pub fn first() -> Triple
    ensures { result ≡ record { k = 0; i = 0; j = 0 } }
{
    Triple { k: 0, i: 0, j: 0 }
}

// The triple of the next task; past the last task it is the triple (n,n,n).
pub fn next(n: u8, a: Triple) -> Triple
    requires { (n ≤ most_tiles) × In n (key a.k a.i a.j) }
    ensures j_value { number n (key result.k result.i result.j) ≡ number n (key a.k a.i a.j) + 1 }
    ensures fact { number n (key a.k a.i a.j) + 1 < length (tasks n) → In n (key result.k result.i result.j) }
{
    if a.j + 1 < n {
        return Triple { j: a.j + 1, ..a };
    }
    if a.i + 1 < n {
        return Triple {
            i: a.i + 1,
            j: a.k,
            ..a
        };
    }
    Triple {
        k: a.k + 1,
        i: a.k + 1,
        j: a.k + 1,
    }
}
