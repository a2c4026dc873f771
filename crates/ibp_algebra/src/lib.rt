//! The definitions of the algebra and their laws: formal sums and combinations of them, polynomials,
//! Laurent polynomials, fields with their two conditions, and the identity of a field at a seed.
//! They stand in specs/, their laws in proofs/, and no code runs here.
#![tactic(auto)]
