//! Tests of the program's calls and of the texts that it prints.
#![tactic(auto)]

#[cfg(test)]
mod logs;
#[cfg(test)]
mod printing;
#[cfg(test)]
mod replays;
#[cfg(test)]
mod runs;
