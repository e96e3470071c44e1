// Scripts and what they print, worked by hand from the rules.
#![tactic(auto)]

#[cfg(test)]
mod compare;
#[cfg(test)]
mod days;
#[cfg(test)]
mod length;
#[cfg(test)]
mod lines;
#[cfg(test)]
mod opening;
#[cfg(test)]
mod refusals;
#[cfg(test)]
mod words;
