//! Whole runs, tested by the public calls of `mount_run`: printed texts, sessions that take turns, makes, faults one at a time, and the
//! largest tree; and the tree over lower names in memory and its listing, under a form in which two lower names may stand for one upper
//! name.
#![tactic(auto)]

#[cfg(test)]
mod faults;
#[cfg(test)]
mod files;
#[cfg(test)]
mod foreign;
#[cfg(test)]
mod listings;
#[cfg(test)]
mod lower_faults;
#[cfg(test)]
mod make;
#[cfg(test)]
mod replay;
#[cfg(test)]
mod report;
#[cfg(test)]
mod run;
#[cfg(test)]
mod sessions;
#[cfg(test)]
mod show;
