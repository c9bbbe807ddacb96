// Copies task records from a slice of RECORD bytes each back to a lent slice of structs.
#![tactic(auto)]

ghost use Rattle.std.specs.Prelude.{◌≡◌, ◌-◌, ◌≤◌, length};
ghost use Rattle.records.specs.Records.{records_from};
ghost use Rattle.task_records.specs.Copies.{copied};

use model::TaskRecord;
use records::{Record, record_at};

// Copies the records from a to below e back.
pub fn store(records: &mut [TaskRecord], flat: &[Record], a: usize, e: usize)
    requires { (e ≤ length records.old) × (e ≤ length flat.now) }
    ensures { records.new ≡ copied (e - a) a (records_from flat.now) records.old }
{
    for p in a..e {
        records[p] = record_at(flat, p);
    }
}
