//! Tests of `mold_session`, `mold_indexed_file`, `mold_unsent`, `mold_receiver`, `mold_rounds`, `mold_capture`,
//! `mold_digest` and `mold_world`.
#![tactic(auto)]

#[cfg(test)]
mod arbiter;
#[cfg(test)]
mod capture;
#[cfg(test)]
mod comparisons;
#[cfg(test)]
mod digests;
#[cfg(test)]
mod indexed_file;
#[cfg(test)]
mod journal_file;
#[cfg(test)]
mod journals;
#[cfg(test)]
mod publisher;
#[cfg(test)]
mod receiver;
#[cfg(test)]
mod receiver_steps;
#[cfg(test)]
mod rounds;
#[cfg(test)]
mod server;
#[cfg(test)]
mod unsent_publisher;
#[cfg(test)]
mod world;
#[cfg(test)]
mod world_of_five;
