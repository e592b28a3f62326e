// Tests of the public calls of the line-up part, made as makers of playout servers make them.
#![tactic(auto)]

#[cfg(test)]
mod cards;
#[cfg(test)]
mod desk;
#[cfg(test)]
mod numbers;
#[cfg(test)]
mod places;
#[cfg(test)]
mod prices;
#[cfg(test)]
mod replays;
#[cfg(test)]
mod rules;
#[cfg(test)]
mod sheets;
#[cfg(test)]
mod spots;
