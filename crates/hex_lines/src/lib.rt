// Bytes in hexadecimal, line after line.
#![tactic(auto)]

pub mod hex;
pub mod lines;
#[cfg(test)]
mod tests;
