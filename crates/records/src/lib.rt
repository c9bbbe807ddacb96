// Task records in a slice that the caller lends, RECORD bytes each. Only these functions and those of record_changes look inside the bytes.
#![tactic(auto)]

ghost use Rattle.std.specs.Prelude.{◌≡◌, ◌<◌, length, get_or};
ghost use Rattle.model.specs.Links.{mark as markAt};
ghost use Rattle.records.specs.Records.{records_from, marks_from, blank};

use model::TaskRecord;

// The bytes of a task record as lent: kind, k, i, j, mark and worker, then the tie sum in two, and the numbers of the calls that took and ended the task in
// four each, low bytes first.
pub const RECORD: usize = 16;

pub type Record = [u8; RECORD];

// The record of task p.
pub fn record_at(records: &[Record], p: usize) -> TaskRecord
    requires { p < length records.now }
    ensures { result ≡ get_or (records_from records.now) p blank }
{
    let b = records[p];
    TaskRecord {
        kind: b[0],
        k: b[1],
        i: b[2],
        j: b[3],
        mark: b[4],
        worker: b[5],
        ties: u16::from_le_bytes([b[6], b[7]]),
        took: u32::from_le_bytes([b[8], b[9], b[10], b[11]]),
        ended: u32::from_le_bytes([b[12], b[13], b[14], b[15]]),
    }
}

// The mark of task p.
pub fn mark_of(records: &[Record], p: usize) -> u8
    requires { p < length records.now }
    ensures { result ≡ markAt (marks_from records.now) p }
{
    records[p][4]
}
