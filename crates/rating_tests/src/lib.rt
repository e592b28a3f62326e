// Tests of the calls that rate lawful line-ups, made as makers of playout servers make them.
#![tactic(auto)]

#[cfg(test)]
mod breaks;
#[cfg(test)]
mod desk;
#[cfg(test)]
mod figure_tables;
#[cfg(test)]
mod limits;
#[cfg(test)]
mod operations;
#[cfg(test)]
mod rows;
