// Tests of the calls that ask for lawful line-ups, made as makers of playout servers make them.
#![tactic(auto)]

#[cfg(test)]
mod breaks;
#[cfg(test)]
mod desk;
#[cfg(test)]
mod lengths;
#[cfg(test)]
mod limits;
#[cfg(test)]
mod readings;
#[cfg(test)]
mod rows;
#[cfg(test)]
mod trials;
