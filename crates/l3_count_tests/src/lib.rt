//! A spectrum -> its quantised values, what they cost, the least gain within a budget: the tests of
//! the crates that count.
//!
//! What they give is compared with worked values from outside the program, and with plain programs
//! that go by the rule alone: quantised values (`quant_plain`), regions (`region_plain`), and
//! counts by the values themselves.
//! Before: `l3_quant`, `l3_region`, `l3_count` and `l3_search`, which are tested here. After: nothing.
#![tactic(auto)]

#[cfg(test)]
mod count;
#[cfg(test)]
mod inputs;
#[cfg(test)]
mod noise;
#[cfg(test)]
mod planes;
#[cfg(test)]
mod quant;
#[cfg(test)]
mod quant_plain;
#[cfg(test)]
mod region;
#[cfg(test)]
mod region_plain;
#[cfg(test)]
mod reservoir;
#[cfg(test)]
mod search;
