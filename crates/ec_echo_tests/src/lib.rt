//! Tests of the program's one call over sources, sinks, disks and nets in memory, which fail too, of servers and mounts over such a net, each in a
//! thread of its own, and of transcripts as histories.
#![tactic(auto)]

#[cfg(test)]
mod alone;
#[cfg(test)]
mod faults;
#[cfg(test)]
mod histories;
#[cfg(test)]
mod lanes;
#[cfg(test)]
mod links;
#[cfg(test)]
mod nodes;
#[cfg(test)]
mod refusing;
#[cfg(test)]
mod runs;
#[cfg(test)]
mod serving;
#[cfg(test)]
mod settling;
#[cfg(test)]
mod volumes;
