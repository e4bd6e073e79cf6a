//! Tests of what the program's commands do where readers and writers fail, and where threads meet. What they write of texts is
//! compared by `tests/cases` and `tests/texts`, over the built program.
#![tactic(auto)]

#[cfg(test)]
mod failing;
#[cfg(test)]
mod faults;
#[cfg(test)]
mod threads;
