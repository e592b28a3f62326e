// Tests of the calls that write a sheet to a file and read it back, made as makers of playout servers make them.
#![tactic(auto)]

#[cfg(test)]
mod breaks;
#[cfg(test)]
mod causes;
#[cfg(test)]
mod desk;
#[cfg(test)]
mod drafts;
#[cfg(test)]
mod flaws;
#[cfg(test)]
mod limits;
#[cfg(test)]
mod numbers;
#[cfg(test)]
mod spaces;
