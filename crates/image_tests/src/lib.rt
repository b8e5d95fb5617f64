//! Tests of what is read from an image: headers, symbols, memory, decoded words, and the account of its bytes.
#![tactic(auto)]

#[cfg(test)]
mod accounts;
#[cfg(test)]
mod claims;
#[cfg(test)]
mod decoding;
#[cfg(test)]
mod headers;
#[cfg(test)]
mod made_images;
#[cfg(test)]
mod memory;
#[cfg(test)]
mod symbols;
