// Copies task records from a lent slice of structs to a slice of RECORD bytes each.
#![tactic(auto)]

ghost use Rattle.std.specs.Prelude.{◌≡◌, ◌≤◌, length};
ghost use Rattle.records.specs.Records.{records_from};
ghost use Rattle.task_records.specs.Copies.{copied};

use model::TaskRecord;
use record_changes::put_record;
use records::Record;

// Copies the first n records.
pub fn load(records: &[TaskRecord], flat: &mut [Record], n: usize)
    requires { (n ≤ length records.now) × (n ≤ length flat.old) }
    ensures { records_from flat.new ≡ copied n 0 records.now (records_from flat.old) }
{
    for p in 0..n {
        put_record(flat, p, records[p]);
    }
}
