// Examples of both kinds, with every value worked by hand.
#![tactic(auto)]

#[cfg(test)]
mod fields_cases;
#[cfg(test)]
mod tallies_cases;
