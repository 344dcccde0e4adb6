//! Tests of judging, over results that no run of threads gives at will; of the tables that it makes; of
//! sources that are analysed in several plans, and with each fault; and of reports, over analyses that are made
//! by hand, each allocation refused in turn.
#![tactic(auto)]

#[cfg(test)]
mod analyses;
#[cfg(test)]
mod faults;
#[cfg(test)]
mod files;
#[cfg(test)]
mod report_allocations;
#[cfg(test)]
mod reports;
#[cfg(test)]
mod tables;
#[cfg(test)]
mod worked_files;
