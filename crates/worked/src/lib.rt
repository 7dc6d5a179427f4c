// Worked examples: lines of text, and districts from their making to their plan.
#![tactic(auto)]

#[cfg(test)]
mod districts;
#[cfg(test)]
mod far;
#[cfg(test)]
mod plans;
#[cfg(test)]
mod reading;
