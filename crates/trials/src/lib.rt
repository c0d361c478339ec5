// Tests of the crates below, by tables of cases.
#![tactic(auto)]

#[cfg(test)]
mod committees;
#[cfg(test)]
mod counting;
#[cfg(test)]
mod lines;
#[cfg(test)]
mod mail_judging;
#[cfg(test)]
mod mail_places;
#[cfg(test)]
mod playing;
#[cfg(test)]
mod posting;
#[cfg(test)]
mod process_sets;
#[cfg(test)]
mod scripts_large;
#[cfg(test)]
mod scripts_liars;
#[cfg(test)]
mod scripts_lines;
#[cfg(test)]
mod scripts_locks;
#[cfg(test)]
mod scripts_openings;
#[cfg(test)]
mod scripts_proposals;
#[cfg(test)]
mod scripts_refusals;
#[cfg(test)]
mod scripts_reports;
#[cfg(test)]
mod scripts_views;
#[cfg(test)]
mod validity;
#[cfg(test)]
mod views;
#[cfg(test)]
mod weights;
