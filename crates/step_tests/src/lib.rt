//! Tests of the image machine, step by step, and of the bytes that are passed to external functions.
#![tactic(auto)]

#[cfg(test)]
mod image_steps;
#[cfg(test)]
mod passed_bytes;
#[cfg(test)]
mod tables;
