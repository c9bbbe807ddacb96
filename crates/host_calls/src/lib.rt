// What a host lends to a call, and what the call tells and leaves: definitions, and laws that lead there from the calls over workers by value.
// Task records are 16 bytes each: kind, k, i, j, mark, worker, two of the tie sum and four each of the numbers of the calls that took and ended the task, low
// bytes first. Workers are slots in three arrays, their count, and the run's number. To the linker a slice is a pointer and a length, and a reference a pointer.
#![tactic(auto)]
