// Examples of letters and takers at the edges of their ranges.
#![tactic(auto)]

#[cfg(test)]
mod journals;
#[cfg(test)]
mod letters;
