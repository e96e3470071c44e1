// Examples of chains: lists pruned and read, the version table, and pruned lengths against a plain count.
#![tactic(auto)]

#[cfg(test)]
mod count_cases;
#[cfg(test)]
mod list_cases;
#[cfg(test)]
mod parts;
#[cfg(test)]
mod table_cases;
