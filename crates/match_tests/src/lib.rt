//! Tests of the matchers: instructions of one word, small data, expanded instructions, functions and variables.
#![tactic(auto)]

#[cfg(test)]
mod functions;
#[cfg(test)]
mod plain;
#[cfg(test)]
mod small_data;
#[cfg(test)]
mod spellings;
#[cfg(test)]
mod test_lines;
#[cfg(test)]
mod variables;
