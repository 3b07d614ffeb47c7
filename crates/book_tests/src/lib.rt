#![tactic(auto)]
// Runs of load, of the reader and of the analysis at their edges.
#[cfg(test)]
mod behaving;
#[cfg(test)]
mod loading;
#[cfg(test)]
mod reading;
