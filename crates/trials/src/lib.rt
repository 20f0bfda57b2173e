#![tactic(auto)]

// Tests of the sums over dates, levels and channels.
#[cfg(test)]
mod circuits_cases;
#[cfg(test)]
mod horizon_cases;
#[cfg(test)]
mod makers;
#[cfg(test)]
mod nets_cases;
#[cfg(test)]
mod series_cases;
#[cfg(test)]
mod sheets;
