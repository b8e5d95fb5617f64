//! Tests that are made in an order, each with its fault; a value or the first fault; what holds of each of a list.
#![tactic(auto)]
