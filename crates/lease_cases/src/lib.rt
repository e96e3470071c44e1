// Examples of both registries and of the tokens, worked by hand from the rules.
#![tactic(auto)]

#[cfg(test)]
mod both;
#[cfg(test)]
mod edges;
mod steps;
#[cfg(test)]
mod tokens;
