// The calls from the side of the terminal, in place (docs/RULES.md, sections 2, 7 and 11): the record is lent, and in its range, but its
// map may be any. The range is asked for and no invariant of the record, because `calls` takes any record at all.
#![tactic(auto)]

pub mod frame; // frame.rt: a frame from the host
pub mod read; // read.rt: the next byte for the host
