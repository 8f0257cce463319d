//! Tests of the places at which an inference stops, on systems and blocks made by hand, of what plans make of numbers,
//! and of certificates and other blocks, where no call of the program comes there.
#![tactic(auto)]

#[cfg(test)]
mod answers;
#[cfg(test)]
mod certificates;
#[cfg(test)]
mod columns;
#[cfg(test)]
mod growths;
#[cfg(test)]
mod programs;
#[cfg(test)]
mod raising;
#[cfg(test)]
mod rows;
