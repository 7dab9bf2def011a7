//! Tests of runs and checks over readers and writers that fail, of runs that come to the last call, of services that
//! succeed where there is memory, and of memory that is refused beside the services.
//! (`tools/hostile-runs` has what the program's files and streams show, and `tests/c` the services.)
#![tactic(auto)]

#[cfg(test)]
mod tests;
