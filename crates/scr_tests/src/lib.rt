//! Tests of what no stored run of the program shows: calls that it does not make, ends of spans that no printed cent
//! tells apart, texts that it does not print, runs whose reads or writes fail in their midst, and what shows at the gate alone.
#![tactic(auto)]

#[cfg(test)]
mod board;
#[cfg(test)]
mod curve;
#[cfg(test)]
mod dates;
#[cfg(test)]
mod flow;
#[cfg(test)]
mod funds;
#[cfg(test)]
mod io;
#[cfg(test)]
mod modules;
#[cfg(test)]
mod outside;
#[cfg(test)]
mod runs;
#[cfg(test)]
mod spans;
#[cfg(test)]
mod statuses;
#[cfg(test)]
mod threads;
#[cfg(test)]
mod widths;
#[cfg(test)]
mod workers;
