//! Tests of estimators: their rows and polygons against worked ones and those by definition, and a block
//! refused its memory, an allocation at a time.
#![tactic(auto)]

#[cfg(test)]
mod allocations;
#[cfg(test)]
mod fixes;
#[cfg(test)]
mod plain;
#[cfg(test)]
mod rows;
