// Scenes on a store, each with every answer worked by hand from the rules.
#![tactic(auto)]

#[cfg(test)]
mod limits;
#[cfg(test)]
mod making;
#[cfg(test)]
mod reports;
mod scene;
#[cfg(test)]
mod writers;
