// Worked examples, which are run.
#![tactic(auto)]

#[cfg(test)]
mod censuses;
#[cfg(test)]
mod comparing;
#[cfg(test)]
mod descriptions;
#[cfg(test)]
mod judging;
#[cfg(test)]
mod normal_forms;
