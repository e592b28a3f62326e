// Tests of the two conversions of tables, of terms into values and back.
#![tactic(auto)]

#[cfg(test)]
mod checks;
#[cfg(test)]
mod lengths;
#[cfg(test)]
mod pairs;
#[cfg(test)]
mod ranges;
