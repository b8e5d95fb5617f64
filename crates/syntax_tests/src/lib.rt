//! Tests of the syntax of assembly and of layouts: names, shapes of functions and units, and the texts of layouts.
#![tactic(auto)]

#[cfg(test)]
mod layouts;
#[cfg(test)]
mod names;
#[cfg(test)]
mod shapes;
